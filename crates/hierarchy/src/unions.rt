// A word of transitions for each mode, joined over the modes within it or over the modes that contain it, in one pass over the modes.
ghost use Rattle.std.specs.Prelude.{◌≡◌, length};
ghost use Rattle.meaning.specs.Check.{sheet_refusal};
ghost use Rattle.hierarchy.specs.Unions.{UnionWithin, UnionContainers};

use sheet::words::{mode_count, parent};

// Each mode's word is joined with those of the modes within it: from the highest mode down, each word is added to
// its parent's.
pub fn union_within(sheet: &[u32], words: &mut [u64; 32])
    requires { (sheet_refusal sheet.now ≡ 0) × (length words.old ≡ 32) }
    ensures { UnionWithin sheet.now words.old words.new }
{
    for m in (1..mode_count(sheet)).rev() {
        let p = parent(sheet, m);
        words[p] |= words[m];
    }
}

// Each mode's word is joined with those of the modes that contain it: from the lowest mode up, its
// parent's word is added to each.
pub fn union_containers(sheet: &[u32], words: &mut [u64; 32])
    requires { (sheet_refusal sheet.now ≡ 0) × (length words.old ≡ 32) }
    ensures { UnionContainers sheet.now words.old words.new }
{
    for m in 1..mode_count(sheet) {
        let p = parent(sheet, m);
        words[m] |= words[p];
    }
}
