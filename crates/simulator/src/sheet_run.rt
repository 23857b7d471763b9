// The sheet run.
ghost use Rattle.std.specs.Prelude.{◌≡◌, ◌⊎◌, true, List, [], ◌∷◌, ℕ, suc, ◌+◌, ◌*◌, ◌%◌, ◌^◌, ◌≤◌, ◌<◌, T, length, get_or};
ghost use Rattle.sets.specs.Sets.{has, meet};
ghost use Rattle.rows.specs.Over.{over, zeros, five_of};
ghost use Rattle.meaning.specs.Lists.{row_from};
ghost use Rattle.meaning.specs.Refusal.{number_of, number_or_0};
ghost use Rattle.meaning.specs.Reaction.{running};
ghost use Rattle.meaning.specs.Run.{ran};
ghost use Rattle.meaning.specs.Sheet.{k_of, t_of};
ghost use Rattle.meaning.specs.Tick.{five_words};
ghost use Rattle.meaning.specs.SheetRun.{state_ok, sheet_ticks, with_numbers, sheet_run};
ghost use Rattle.reaction.specs.Plan.{Planned, sources_in, timer_delay};
ghost use Rattle.reaction.specs.Rounds.{tick_of, start_sets, rounds_by, StartOf, Begun};
ghost use Rattle.reaction.specs.Causes.{fired_by};
ghost use Rattle.run.specs.States.{state_of};
ghost use Rattle.run.specs.Entries.{limits_by};
ghost use Rattle.run.specs.Counts.{total_of};
ghost use Rattle.run.specs.Runs.{ended_run};
ghost use Rattle.simulator.specs.Runs.{ran_of};

use super::state::state_ok;
use meaning::refusal::Refusal;
use planner::put_plan;
use reaction::alternatives::put_numbers;
use reaction::plan::{Plan, blank, from_set, timer_delays};
use reaction::tick::{Start, Ticked, first_triggered, five_words, rounds, start_of};
use rows::{Five, put_five, put_zeros};
use run::ages::{age_limits, enter_by_words, note_entries};
use run::counts::{Rounds, Ticks, with_rounds};
use run::deadlines::{deadlines, due_by, restart, soon_after};
use run::state::{State, state_at};
use sets::set::Set;
use sets::transitions;
use sheet::words::event_count;

// What a sheet run returns: ticks done, their total of rounds, the state after them, the refusal.
#[derive(Clone, Copy)]
pub struct Ran {
    pub done: Ticks,
    pub rounds: Rounds,
    pub state: State,
    pub refusal: Option<Refusal>,
}

// A run that ends after some ticks, in the mode set x with these timers running; no deadline of theirs is past. The modes of `seen`
// were last entered as the words of the ticks say; none of x is yet to be entered.
fn ended(
    ends: &[u64; 64],
    limits: &mut [u64; 32],
    out: &[u32],
    seen: u32,
    x: u32,
    timers: u64,
    done: usize,
    total: Rounds,
    why: Option<Refusal>,
) -> Ran
    requires { ((t : ℕ) → has timers t ≡ true → done ≤ get_or ends.now t 0)
        × ((m : ℕ) → has x m ≡ true → get_or (limits_by limits.old out.now seen done) m 0 ≤ done + 65535)
        × (length limits.old ≡ 32)
        × (5 * done ≤ length out.now) }
    ensures { ((words : List ℕ) →
        ran_of result words
        ≡ ended_run ends.now (limits_by limits.old out.now seen done)
        x x timers done (total_of total) (number_or_0 why) words)
        × (result.rounds.1 ≡ total.1) }
{
    enter_by_words(out, limits, seen, done);
    let state = state_at(ends, limits, x, x, timers, done as u64);
    Ran {
        done: Ticks(done),
        rounds: total,
        state,
        refusal: why,
    }
}

// What a tick from the mode set x begins with, by what the first tick begins with and the transitions whose source is in x.
fn start_from(sheet: &[u32], plan: &Plan, first: Start, x: u32, live: u64) -> Start
    requires { Planned sheet.now plan.now
        × StartOf sheet.now 0 first
        × (live ≡ sources_in sheet.now x) }
    ensures { StartOf sheet.now x result }
{
    if x == 0 {
        return first;
    }
    Start {
        begun: x,
        entered: 0,
        live,
        unsure: live & plan.early,
    }
}

// The words of a tick without a round in the mode set x, not the first.
fn quiet_words(x: u32) -> Five
    ensures { five_of result ≡ 0 ∷ 0 ∷ x ∷ 0 ∷ 0 ∷ [] }
{
    Five {
        entered: 0,
        exited: 0,
        active: x,
        low: 0,
        high: 0,
    }
}

// The words and the numbers of such a tick, set i of the list.
fn put_quiet(out: &mut [u32], numbers: &mut [u8], i: usize, x: u32)
    requires { (5 * i + 5 ≤ length out.old) × (64 * i + 64 ≤ length numbers.old) }
    ensures { (out.new ≡ over out.old (5 * i) (0 ∷ 0 ∷ x ∷ 0 ∷ 0 ∷ []))
        × (numbers.new ≡ over numbers.old (64 * i) (zeros 64)) }
{
    put_five(out, 5 * i, quiet_words(x));
    put_zeros(numbers, 64 * i);
}

// The words and the numbers of the tick o, set i of the list, that begins with b and the triggered transitions `first`.
fn put_tick(
    sheet: &[u32],
    plan: &Plan,
    b: Start,
    first: u64,
    input: u32,
    o: Ticked,
    out: &mut [u32],
    numbers: &mut [u8],
    i: usize,
)
    requires { Planned sheet.now plan.now
        × Begun sheet.now b.begun b.entered first input
        × (input < 2 ^ k_of sheet.now)
        × (tick_of b.begun o ≡ rounds_by sheet.now (suc (t_of sheet.now)) input (start_sets b) first 0)
        × (5 * i + 5 ≤ length out.old)
        × (64 * i + 64 ≤ length numbers.old) }
    ensures { (out.new ≡ over out.old (5 * i) (five_words (tick_of b.begun o).sets))
        × (numbers.new ≡ over numbers.old (64 * i) (row_from 0 64
        (fired_by sheet.now (suc (t_of sheet.now)) input (start_sets b) first))) }
{
    put_five(out, 5 * i, five_words(b.begun, o));
    put_numbers(sheet, plan, b, first, input, o, numbers, 64 * i);
}

// What a tick leaves: the transitions whose source is active, and the timers among them that start, whose source was entered.
#[derive(Clone, Copy)]
pub struct Left {
    pub live: u64,
    pub starts: u64,
}

// What is left by a tick from the mode set x, after which every mode was in x or was entered.
fn left_by(sheet: &[u32], plan: &Plan, x: u32, live: u64, o: Ticked) -> Left
    requires { Planned sheet.now plan.now
        × (live ≡ sources_in sheet.now x)
        × ((m : ℕ) → T (has o.modes m) → T (has x m) ⊎ T (has (o.changed % 2 ^ 32) m)) }
    ensures { (result.live ≡ sources_in sheet.now o.modes)
        × (result.starts
        ≡ meet (sources_in sheet.now (o.changed % 2 ^ 32)) (running sheet.now o.modes)) }
{
    let entered = transitions::low(o.changed);
    let gained = from_set(sheet, plan, entered);
    let lost = from_set(sheet, plan, (x | entered).minus(o.modes));
    let now = (live | gained).minus(lost);
    Left {
        live: now,
        starts: gained & (now & plan.timers),
    }
}

// Tick by tick: 13, then 8 or 9.
fn ticks(
    sheet: &[u32],
    plan: &Plan,
    delays: &[u64; 64],
    start: State,
    inputs: &[u32],
    out: &mut [u32],
    numbers: &mut [u8],
) -> Ran
    requires { Planned sheet.now plan.now
        × (delays.now ≡ row_from 0 64 (timer_delay sheet.now))
        × (state_ok sheet.now (state_of start) ≡ true)
        × (5 * length inputs.now ≤ length out.old)
        × (64 * length inputs.now ≤ length numbers.old) }
    ensures { (record { run = ran_of result out.new; numbers = numbers.new }
        ≡ with_numbers sheet.now (state_of start) inputs.now numbers.old
        (ran out.old (sheet_ticks sheet.now inputs.now (state_of start))))
        × (result.rounds.1 < 2 ^ 32) }
{
    let timers = plan.timers;
    let k = event_count(sheet);
    let mut ends = deadlines(start.readings);
    let mut limits = age_limits(start.ages);
    let mut seen = 0u32;
    let mut x = start.at;
    let mut live = from_set(sheet, plan, x);
    let power_on = start_of(sheet, plan, 0);
    let mut soon = 0u64;
    let mut total = Rounds(0, 0);
    for (i, &input) in inputs.iter().enumerate() {
        let running = live & timers;
        if input >> k != 0 {
            return ended(
                &ends,
                &mut limits,
                out,
                seen,
                x,
                running,
                i,
                total,
                Some(Refusal::InputSet),
            );
        }
        let now = i + 1;
        let d = due_by(&ends, running, soon, now as u64, 0);
        let from = start_from(sheet, plan, power_on, x, live);
        let first = first_triggered(sheet, plan, from, d.set, input);
        // The first tick enters modes.
        let later = x != 0;
        if first == 0 && later {
            put_quiet(out, numbers, i, x);
            soon = soon_after(&ends, running, soon, now as u64);
        } else {
            let o = rounds(sheet, plan, from.begun, from.entered, first, input);
            if o.refusal.is_some() {
                return ended(
                    &ends,
                    &mut limits,
                    out,
                    seen,
                    x,
                    running,
                    i,
                    total,
                    o.refusal,
                );
            }
            let left = left_by(sheet, plan, x, live, o);
            restart(delays, &mut ends, left.starts, now as u64);
            put_tick(sheet, plan, from, first, input, o, out, numbers, i);
            total = with_rounds(total, o.rounds);
            let entered = transitions::low(o.changed);
            seen = note_entries(&mut limits, seen, x, o.modes, entered, i);
            x = o.modes;
            live = left.live;
            soon = 0;
        }
    }
    ended(
        &ends,
        &mut limits,
        out,
        seen,
        x,
        live & timers,
        inputs.len(),
        total,
        None,
    )
}

// A run that stops before any tick.
fn stops(state: State, why: Refusal) -> Ran
    ensures { ((out : List ℕ) →
        ran_of result out ≡ record { done = 0; state = state_of state; refusal = number_of why; rounds = 0; out = out })
        × (result.rounds.1 ≡ 0) }
{
    Ran {
        done: Ticks(0),
        rounds: Rounds(0, 0),
        state,
        refusal: Some(why),
    }
}

// The sheet run, on any sheet words, state, input sets, output words and numbers: 1 to 6, 14, 12, then tick by tick 13, then 8 or 9. A
// refused tick leaves the state of the tick before; only the five words of each done tick are written, at 5p, and its 64 numbers, at
// 64p.
pub fn run(sheet: &[u32], state: State, inputs: &[u32], out: &mut [u32], numbers: &mut [u8]) -> Ran
    ensures { (record { run = ran_of result out.new; numbers = numbers.new }
        ≡ sheet_run sheet.now (state_of state) inputs.now out.old numbers.old)
        × (total_of result.rounds ≤ t_of sheet.now * result.done.0)
        × (result.rounds.1 < 2 ^ 32) }
{
    if let Err(why) = sheet::check(sheet) {
        return stops(state, why);
    }
    let mut plan = blank();
    put_plan(sheet, &mut plan);
    let delays = timer_delays(sheet, &plan);
    if !state_ok(sheet, &plan, &delays, state) {
        return stops(state, Refusal::State);
    }
    if out.len() / 5 < inputs.len() || numbers.len() / 64 < inputs.len() {
        return stops(state, Refusal::ShortOutput);
    }
    ticks(sheet, &plan, &delays, state, inputs, out, numbers)
}
