// The case of delays in milliseconds: what it reads after its number, the call that it makes and the line that it writes.
use case_text::digests::digest;
use case_text::line::Line;
use case_text::text::Text;
use milliseconds::in_ticks;

// Case 17: a tick length, a list of delays, how many result words are lent.
pub fn convert(text: &mut Text) {
    let mut delays = [0; 64];
    let mut results = [u32::MAX; 200];
    let mut bytes = [0; 8192];
    let tick = text.number();
    let count = text.words(&mut delays);
    let lent = text.count(results.len());
    let results = &mut results[..lent];
    let mut line = Line::start_in(&mut bytes, b"milliseconds");
    line.put_refusal(in_ticks(tick, &delays[..count], results).err());
    line.put(digest(results));
    line.write();
}
