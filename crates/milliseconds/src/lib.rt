// Delays in milliseconds, as ticks and the milliseconds left over.
#![tactic(auto)]

ghost use Rattle.std.specs.Prelude.{◌≡◌, ℕ, ◌*◌, ◌≤◌, ◌<◌, ltb, length, get_or};
ghost use Rattle.sets.specs.Sets.{some};
ghost use Rattle.rows.specs.Over.{over};
ghost use Rattle.meaning.specs.Milliseconds.{ticks_and_rests, milliseconds};
ghost use Rattle.meaning.specs.Refusal.{err_or_0};

use meaning::refusal::Refusal;
use rows::put_pair;

// The most ticks that a sheet's delay may have.
const MOST_TICKS: u32 = 65535;

// The longest of some delays, 0 if there is none: it is above a number exactly if some delay is.
fn longest(delays: &[u32]) -> u32
    ensures { (n : ℕ) → some (length delays.now) (λ i. ltb n (get_or delays.now i 0)) ≡ ltb n result }
{
    delays.iter().copied().max().unwrap_or(0)
}

// Each delay's ticks and rest.
fn put_all(tick: u32, delays: &[u32], results: &mut [u32])
    requires { (0 < tick) × (2 * length delays.now ≤ length results.old) }
    ensures { results.new ≡ over results.old 0 (ticks_and_rests tick delays.now) }
{
    for (i, &delay) in delays.iter().enumerate() {
        put_pair(results, 2 * i, delay / tick, delay % tick);
    }
}

// The delays in ticks: delay i has its ticks at word 2i of the results, its rest at 2i + 1. A delay shorter than the tick is 0
// ticks.
pub fn in_ticks(tick: u32, delays: &[u32], results: &mut [u32]) -> Result<(), Refusal>
    ensures { record { refusal = err_or_0 result; results = results.new }
        ≡ milliseconds tick delays.now results.old }
{
    if results.len() / 2 < delays.len() {
        return Err(Refusal::ShortOutput);
    }
    if tick == 0 || MOST_TICKS < longest(delays) / tick {
        return Err(Refusal::TickRange);
    }
    put_all(tick, delays, results);
    Ok(())
}
