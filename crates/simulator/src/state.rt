// Which states refusal 14 admits.
ghost use Rattle.std.specs.Prelude.{◌≡◌, true, ℕ, ◌+◌, ◌<◌, eqb, get_or};
ghost use Rattle.sets.specs.Sets.{has};
ghost use Rattle.meaning.specs.Lists.{row_from};
ghost use Rattle.meaning.specs.Sheet.{t_of, source};
ghost use Rattle.meaning.specs.Check.{sheet_refusal};
ghost use Rattle.meaning.specs.Ages.{sums_ok};
ghost use Rattle.meaning.specs.Run.{reading};
ghost use Rattle.meaning.specs.SheetRun.{timers_ok, state_ok};
ghost use Rattle.reaction.specs.Plan.{Planned, timer_delay};
ghost use Rattle.run.specs.States.{state_of};

use hierarchy::consistent::is_consistent;
use reaction::plan::{Plan, running};
use run::ages::ages_ok;
use run::state::{State, readings_ok};
use sets::set::Set;
use sheet::words::source;

// Fresh, or consistent with sound readings.
fn timers_ok(sheet: &[u32], plan: &Plan, delays: &[u64; 64], state: State) -> bool
    requires { Planned sheet.now plan.now
        × (delays.now ≡ row_from 0 64 (timer_delay sheet.now)) }
    ensures { result ≡ timers_ok sheet.now (state_of state) }
{
    if state.at != 0 && !is_consistent(sheet, state.at) {
        return false;
    }
    let readings = state.readings;
    readings_ok(delays, running(sheet, plan, state.at), &readings)
}

// A reading and an age make a delay.
fn sum_ok(reading: u32, age: u32, delay: u64) -> bool
    ensures { result ≡ eqb (reading + age) delay }
{
    (reading as u64) + (age as u64) == delay
}

// The reading of each running timer and the age of its source make its delay.
fn sums_ok(
    sheet: &[u32],
    delays: &[u64; 64],
    timers: u64,
    readings: &[u32; 64],
    ages: &[u32; 32],
) -> bool
    requires { (sheet_refusal sheet.now ≡ 0)
        × ((t : ℕ) → has timers t ≡ true → t < t_of sheet.now) }
    ensures { result
        ≡ sums_ok timers (source sheet.now) (λ t. get_or delays.now t 0) (reading readings.now)
        ages.now }
{
    for t in timers.members() {
        if !sum_ok(readings[t], ages[source(sheet, t)], delays[t]) {
            return false;
        }
    }
    true
}

// Fresh or consistent, with sound readings, sound ages and sums: 14 if not.
pub fn state_ok(sheet: &[u32], plan: &Plan, delays: &[u64; 64], state: State) -> bool
    requires { Planned sheet.now plan.now
        × (delays.now ≡ row_from 0 64 (timer_delay sheet.now)) }
    ensures { result ≡ state_ok sheet.now (state_of state) }
{
    if !timers_ok(sheet, plan, delays, state) {
        return false;
    }
    let readings = state.readings;
    let ages = state.ages;
    if !ages_ok(state.at, &ages) {
        return false;
    }
    sums_ok(
        sheet,
        delays,
        running(sheet, plan, state.at),
        &readings,
        &ages,
    )
}
