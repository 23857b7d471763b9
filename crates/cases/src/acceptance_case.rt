// The case of a table from elsewhere: the call that it makes and the line that it writes.
use acceptance::accept;
use case_text::line::Line;

// Case 14: the current table against the current sheet.
pub fn accept_table(sheet: &[u32], table: &[u32]) {
    let mut bytes = [0; 8192];
    let mut line = Line::start_in(&mut bytes, b"foreign");
    line.put_refusal(accept(sheet, table).err());
    line.write();
}
