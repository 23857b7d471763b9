// The plan of a sheet, worked out once per call: each part is laid in place.
#![tactic(auto)]

ghost use Rattle.std.specs.Prelude.{◌≡◌};
ghost use Rattle.meaning.specs.Check.{sheet_refusal};
ghost use Rattle.reaction.specs.Plan.{no_plan, Planned};

mod classes;
mod conflicts;
mod ends;
mod hits;
mod looks;
mod next;
mod sources;

use hierarchy::tree::Tree;
use reaction::plan::Plan;
use sheet::hierarchy::{children, containers};
use sheet::within::within_each;

// The plan of a sheet past 1 to 6, put into a blank one: a plan returned would be copied.
pub fn put_plan(sheet: &[u32], plan: &mut Plan)
    requires { (sheet_refusal sheet.now ≡ 0) × (plan.old ≡ no_plan) }
    ensures { Planned sheet.now plan.new }
{
    let children = children(sheet);
    let within = within_each(sheet);
    let containers = containers(sheet);
    let tree = Tree::of(sheet, &children, &within, &containers);
    let meets = conflicts::meetings(&tree);
    let classed = classes::classes_of(sheet);
    sources::put_from(sheet, &mut plan.from);
    ends::put_ends(&tree, &meets, &mut plan.ends);
    plan.events = next::put_next(
        sheet,
        &plan.from,
        &plan.ends,
        &mut plan.next,
        &mut plan.named,
    );
    conflicts::put_conflicts(sheet, &meets, &mut plan.conflicts, &mut plan.yielders);
    classes::put_delays(sheet, classed.timing, &mut plan.delays);
    hits::put_hits(sheet, classed.certain, &mut plan.hits);
    plan.timers = classed.timing;
    plan.mixed = classes::mixed(sheet, classed.timing, classed.certain);
    plan.early = classes::early(sheet, plan.mixed);
    plan.start = tree.start();
}
