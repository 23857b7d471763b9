// The transitions by their sources.
ghost use Rattle.std.specs.Prelude.{◌≡◌, replicate};
ghost use Rattle.meaning.specs.Check.{sheet_refusal};
ghost use Rattle.planner.specs.Parts.{Words, from_of};

use sets::set::Set;
use sheet::words::{source, transition_count};

// Each transition is added to its source's word.
pub fn put_from(sheet: &[u32], from: &mut [u64; 32])
    requires { (sheet_refusal sheet.now ≡ 0) × (from.old ≡ replicate 32 0) }
    ensures { Words from.new 32 (from_of sheet.now) }
{
    for t in 0..transition_count(sheet) {
        from[source(sheet, t)] |= u64::single(t);
    }
}
