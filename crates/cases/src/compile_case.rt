// The case of a compilation: what it reads after its number, the call that it makes and the line that it writes.
ghost use Rattle.std.specs.Prelude.{◌≤◌, length};

use case_text::digests::digest;
use case_text::line::Line;
use case_text::text::Text;

// How many table words were lent, and how many the table has: 0 where the sheet was refused.
#[derive(Clone, Copy)]
pub struct Built {
    pub lent: usize,
    pub length: usize,
}

// Case 3: how many table words and how many work-list words are lent; a compilation of the current sheet, whose table is the
// current one from now on.
pub fn compile(text: &mut Text, sheet: &[u32], table: &mut [u32]) -> Built
    ensures lent { result.lent ≤ length table.old }
    ensures length { result.length ≤ result.lent }
{
    let mut work = [u32::MAX; 4096];
    let mut bytes = [0; 8192];
    let lent = text.count(table.len());
    let places = text.count(work.len());
    let table = &mut table[..lent];
    let work = &mut work[..places];
    table.fill(u32::MAX);
    let compiled = compiler::compile(sheet, table, work);
    let length = compiled.table_length.unwrap_or(0);
    let mut line = Line::start_in(&mut bytes, b"compile");
    line.put_refusal(compiled.table_length.err());
    line.put(compiled.f as u64);
    line.put(length as u64);
    line.put(digest(table));
    line.put(digest(work));
    line.write();
    Built {
        lent,
        length: length.min(lent),
    }
}
