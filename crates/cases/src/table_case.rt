// The cases of a table: what each reads after its number, the call that it makes and the line that it writes.
use case_text::digests::digest;
use case_text::line::Line;
use case_text::text::Text;
use recorder::table_run::run;

// Case 4: a run of the current table.
pub fn table_run(text: &mut Text, table: &[u32]) {
    let mut inputs = [0; 64];
    let mut out = [u32::MAX; 400];
    let mut bytes = [0; 8192];
    let asked = text.run(&mut inputs, out.len());
    let out = &mut out[..asked.outputs];
    let ran = run(table, asked.state, &inputs[..asked.inputs], out);
    let mut line = Line::start_in(&mut bytes, b"table");
    line.put_refusal(ran.refusal);
    line.put(ran.done.0 as u64);
    line.put(digest(out));
    line.put_state(&ran.state);
    line.write();
}

// Case 5: a place and a value; one of the table words lent is written. A place outside them is passed over.
pub fn write_word(text: &mut Text, table: &mut [u32]) {
    let place = text.number() as usize;
    let value = text.number();
    if let Some(word) = table.get_mut(place) {
        *word = value;
    }
}
