// The bench program: a sheet and input sets from standard input; the sheet compiled, its table run, a line printed per tick.
#![tactic(auto)]

use printout::texts::answer_texts;

fn main() {
    answer_texts(None);
}
