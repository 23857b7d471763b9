// Refusal 3: the pairs of offset and length.
ghost use Rattle.std.specs.Prelude.{◌≡◌, ◌≤◌, T};
ghost use Rattle.meaning.specs.Sheet.{t_of, end_before};
ghost use Rattle.meaning.specs.Check.{head_ok, pair_ok, pairs_ok};
ghost use Rattle.sheet.specs.Reading.{Pair};

use super::words::{offset, record_length, records_start, transition_count};

// Where the records before record t end.
fn end_before(sheet: &[u32], t: usize) -> usize
    requires { T (head_ok sheet.now) × (t ≤ t_of sheet.now) }
    ensures { result ≡ end_before sheet.now t }
{
    if t == 0 {
        return records_start(sheet);
    }
    offset(sheet, t - 1) + record_length(sheet, t - 1)
}

fn pair_ok(sheet: &[u32], t: usize) -> bool
    requires { Pair sheet.now t }
    ensures { result ≡ pair_ok sheet.now t }
{
    let len = record_length(sheet, t);
    offset(sheet, t) == end_before(sheet, t) && len % 2 == 0 && 4 <= len && len <= 34
}

// Every pair is sound, and the last record ends the sheet.
pub fn pairs_ok(sheet: &[u32]) -> bool
    requires { T (head_ok sheet.now) }
    ensures { result ≡ pairs_ok sheet.now }
{
    let count = transition_count(sheet);
    (0..count).all(|t| pair_ok(sheet, t)) && end_before(sheet, count) == sheet.len()
}
