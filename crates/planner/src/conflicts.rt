// The transitions in conflict with each other, and those that give way, by the masks of their meeting modes.
ghost use Rattle.std.specs.Prelude.{◌≡◌};
ghost use Rattle.meaning.specs.Sheet.{t_of};
ghost use Rattle.meaning.specs.Check.{sheet_refusal};
ghost use Rattle.reaction.specs.Plan.{conflicts_of, yielders_of};
ghost use Rattle.planner.specs.Parts.{Words, Meetings, ByMeeting};

use hierarchy::tree::Tree;
use hierarchy::unions::{union_containers, union_within};
use sets::set::Set;
use sheet::words::transition_count;

// Each transition's own meeting mode.
pub fn meetings(tree: &Tree) -> [usize; 64]
    ensures { Meetings tree.now.sheet.now result }
{
    let mut r = [0usize; 64];
    for t in 0..transition_count(tree.sheet) {
        r[t] = tree.meeting(t);
    }
    r
}

// The transitions of each meeting mode.
fn by_meeting(sheet: &[u32], meets: &[usize; 64]) -> [u64; 32]
    requires { (sheet_refusal sheet.now ≡ 0) × Meetings sheet.now meets.now }
    ensures { ByMeeting sheet.now result }
{
    let mut r = [0u64; 32];
    for t in 0..transition_count(sheet) {
        r[meets[t]] |= u64::single(t);
    }
    r
}

// In conflict with t are those whose meeting mode is within t's or contains it; those within it give way.
pub fn put_conflicts(
    sheet: &[u32],
    meets: &[usize; 64],
    conflicts: &mut [u64; 64],
    yielders: &mut [u64; 64],
)
    requires { (sheet_refusal sheet.now ≡ 0) × Meetings sheet.now meets.now }
    ensures { Words conflicts.new (t_of sheet.now) (conflicts_of sheet.now)
        × Words yielders.new (t_of sheet.now) (yielders_of sheet.now) }
{
    let by = by_meeting(sheet, meets);
    let mut inside = by;
    union_within(sheet, &mut inside);
    let mut above = by;
    union_containers(sheet, &mut above);
    for t in 0..transition_count(sheet) {
        let p = meets[t];
        conflicts[t] = (inside[p] | above[p]).minus(u64::single(t));
        yielders[t] = inside[p].minus(by[p]);
    }
}
