// What each transition exits and enters.
ghost use Rattle.std.specs.Prelude.{◌≡◌};
ghost use Rattle.meaning.specs.Sheet.{t_of};
ghost use Rattle.planner.specs.Parts.{Words, Meetings, ends_of};

use hierarchy::tree::Tree;
use sets::transitions;
use sheet::words::transition_count;

// The sets of each transition.
pub fn put_ends(tree: &Tree, meets: &[usize; 64], ends: &mut [u64; 64])
    requires { Meetings tree.now.sheet.now meets.now }
    ensures { Words ends.new (t_of tree.now.sheet.now) (ends_of tree.now.sheet.now) }
{
    for t in 0..transition_count(tree.sheet) {
        let p = meets[t];
        ends[t] = transitions::join(tree.exited_by(p, t), tree.entered_by(p, t));
    }
}
