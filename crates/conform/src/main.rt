// The conformance program: cases on standard input, an answer for each on standard output.
#![tactic(auto)]

mod case;
mod current;

use case::Case;
use case_text::text::Text;
use current::Current;

// Answers the cases to the last: a number that is no case ends the program, and so does the end of the text, which reads as 0.
fn main() {
    let mut text = Text::new();
    let mut current = Current::new();
    // Nothing says that the text ends; no run uses up these turns.
    for _ in 0..u64::MAX {
        let Ok(case) = Case::try_from(text.number()) else {
            break;
        };
        current.answer(&mut text, case);
    }
}
