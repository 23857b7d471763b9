// Why a transition stayed put in a tick of a sheet.
ghost use Rattle.std.specs.Prelude.{◌≡◌, true, ◌^◌, ◌<◌};
ghost use Rattle.meaning.specs.Sheet.{k_of, t_of};
ghost use Rattle.meaning.specs.SheetRun.{state_ok};
ghost use Rattle.meaning.specs.Why.{why};
ghost use Rattle.reaction.specs.Plan.{Planned};
ghost use Rattle.reaction.specs.Reasons.{answer_of};
ghost use Rattle.run.specs.States.{state_of};

use super::state::state_ok;
use meaning::refusal::Refusal;
use planner::put_plan;
use reaction::plan::{Plan, blank, hits, running, timer_delays};
use reaction::tick::{Sets, rounds, start_of, triggered};
use reaction::why::{Why, reason};
use run::deadlines::{deadlines, due};
use run::state::State;
use sheet::words::{event_count, transition_count, wide};

// What the tick from an admitted state reports of transition t: 8 or 9, or a reason.
fn tick_report(
    sheet: &[u32],
    plan: &Plan,
    state: State,
    input: u32,
    t: usize,
) -> Result<Why, Refusal>
    requires { Planned sheet.now plan.now
        × (state_ok sheet.now (state_of state) ≡ true)
        × (t < t_of sheet.now)
        × (input < 2 ^ k_of sheet.now) }
    ensures { answer_of result ≡ why sheet.now (state_of state) input t }
{
    let ends = deadlines(state.readings);
    let timers = running(sheet, plan, state.at);
    let due = due(&ends, timers, 1, 0);
    let b = start_of(sheet, plan, state.at);
    // As `first_triggered`, which is compiled into the loop of the sheet run while nothing but that and a cell's tick calls it.
    let sure = b.live & (due.set | hits(sheet, plan, input));
    let z = Sets {
        modes: b.begun,
        entered: b.entered,
        exited: 0,
        taken: 0,
    };
    let first = triggered(sheet, sure, b.unsure, z, b.begun, input);
    let o = rounds(sheet, plan, b.begun, b.entered, first, input);
    if let Some(why) = o.refusal {
        return Err(why);
    }
    Ok(reason(sheet, plan, b, first, input, o, t))
}

// Why a transition stayed put, on any sheet words, state, input set and transition number: 1 to 6, 14, 16, 13, then 8 or 9, or a reason.
pub fn why(sheet: &[u32], state: State, input: u32, transition: u32) -> Result<Why, Refusal>
    ensures { answer_of result ≡ why sheet.now (state_of state) input transition }
{
    sheet::check(sheet)?;
    let mut plan = blank();
    put_plan(sheet, &mut plan);
    let delays = timer_delays(sheet, &plan);
    if !state_ok(sheet, &plan, &delays, state) {
        return Err(Refusal::State);
    }
    let t = wide(transition);
    if transition_count(sheet) <= t {
        return Err(Refusal::Transition);
    }
    if input >> event_count(sheet) != 0 {
        return Err(Refusal::InputSet);
    }
    tick_report(sheet, &plan, state, input, t)
}
