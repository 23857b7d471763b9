// The case of the alternatives that fired: what it reads after its number, the call that it makes and the line that it writes.
use super::sheet_case::put_counts;
use case_text::digests::{digest, with_word};
use case_text::line::Line;
use case_text::text::Text;
use simulator::sheet_run::run;

// A number of the list as the word that is digested; 255, which no transition has, stands for a lent word as it was.
fn word_of(number: u8) -> u32 {
    if number == u8::MAX {
        u32::MAX
    } else {
        u32::from(number)
    }
}

// Case 15: a run of the current sheet with its numbers, and how many of these are lent.
pub fn alternatives(text: &mut Text, sheet: &[u32]) {
    let mut inputs = [0; 64];
    let mut out = [u32::MAX; 400];
    let mut numbers = [u8::MAX; 4160];
    let mut bytes = [0; 8192];
    let asked = text.run(&mut inputs, out.len());
    let lent = text.count(numbers.len());
    let out = &mut out[..asked.outputs];
    let numbers = &mut numbers[..lent];
    let ran = run(sheet, asked.state, &inputs[..asked.inputs], out, numbers);
    let mut line = Line::start_in(&mut bytes, b"alternatives");
    put_counts(&mut line, &ran);
    line.put(digest(out));
    line.put(numbers.iter().map(|n| word_of(*n)).fold(0, with_word));
    line.put_state(&ran.state);
    line.write();
}
