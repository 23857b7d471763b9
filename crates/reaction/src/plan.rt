// The plan of a sheet: what depends on the sheet alone, read by a tick.
ghost use Rattle.std.specs.Prelude.{◌≡◌, ◌^◌, ◌<◌};
ghost use Rattle.meaning.specs.Lists.{row_from};
ghost use Rattle.meaning.specs.Sheet.{k_of};
ghost use Rattle.meaning.specs.Reaction.{running};
ghost use Rattle.reaction.specs.Plan.{no_plan, Planned, hits_of, sources_in, named_in, timer_delay};

use sets::transitions;
use sheet::words::wide;

// A word for each transition t, mode m or input set i.
#[derive(Clone, Copy)]
pub struct Plan {
    // t: the modes that t exits if they are active, and from bit 32 on those that it enters
    pub ends: [u64; 64],
    // t: the other transitions in conflict with t
    pub conflicts: [u64; 64],
    // t: the transitions that give way to t
    pub yielders: [u64; 64],
    // t: the transitions that a round which takes t can trigger next
    pub next: [u64; 64],
    // t: the delay of a timer, else 0
    pub delays: [u64; 64],
    // i: the transitions that input set i triggers by itself
    pub hits: [u64; 64],
    // m: the transitions with source m
    pub from: [u64; 32],
    // m: the events that transitions with source m name
    pub named: [u64; 32],
    // the timers
    pub timers: u64,
    // the transitions whose terms are judged
    pub mixed: u64,
    // those of them that are judged where a tick begins
    pub early: u64,
    // the events that any transition names
    pub events: u64,
    // the root, completed
    pub start: u32,
}

// A plan to be filled in.
pub fn blank() -> Plan
    ensures { result ≡ no_plan }
{
    Plan {
        ends: [0; 64],
        conflicts: [0; 64],
        yielders: [0; 64],
        next: [0; 64],
        delays: [0; 64],
        hits: [0; 64],
        from: [0; 32],
        named: [0; 32],
        timers: 0,
        mixed: 0,
        early: 0,
        events: 0,
        start: 0,
    }
}

// The transitions that an input set triggers by itself.
pub fn hits(sheet: &[u32], plan: &Plan, input: u32) -> u64
    requires { Planned sheet.now plan.now × (input < 2 ^ k_of sheet.now) }
    ensures { result ≡ hits_of sheet.now input }
{
    plan.hits[wide(input)]
}

// The transitions whose source is in a mode set.
pub fn from_set(sheet: &[u32], plan: &Plan, set: u32) -> u64
    requires { Planned sheet.now plan.now }
    ensures { result ≡ sources_in sheet.now set }
{
    transitions::union_of(&plan.from, set)
}

// The events that transitions with a source in a mode set name.
pub fn named_in(sheet: &[u32], plan: &Plan, set: u32) -> u64
    requires { Planned sheet.now plan.now }
    ensures { result ≡ named_in sheet.now set }
{
    transitions::union_of(&plan.named, set)
}

// The delays of the timers, 0 for other transitions.
pub fn timer_delays(sheet: &[u32], plan: &Plan) -> [u64; 64]
    requires { Planned sheet.now plan.now }
    ensures { result ≡ row_from 0 64 (timer_delay sheet.now) }
{
    plan.delays
}

// The timers that run in a mode set.
pub fn running(sheet: &[u32], plan: &Plan, set: u32) -> u64
    requires { Planned sheet.now plan.now }
    ensures { result ≡ running sheet.now set }
{
    from_set(sheet, plan, set) & plan.timers
}
