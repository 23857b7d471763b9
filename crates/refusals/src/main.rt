// The bench program's answers to many texts on standard input, with a semicolon between them.
#![tactic(auto)]

use printout::texts::answer_texts;

fn main() {
    answer_texts(Some(b';'));
}
