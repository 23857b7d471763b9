// States: fresh, after a tick, as lent words; and what refusal 14 asks of their readings.
ghost use Rattle.std.specs.Prelude.{◌≡◌, ◌&&◌, true, ℕ, ◌+◌, ◌^◌, ◌<◌, ◌≤◌, leb, length, get_or, take, drop};
ghost use Rattle.sets.specs.Sets.{has};
ghost use Rattle.rows.specs.Over.{over};
ghost use Rattle.meaning.specs.Lists.{overwritten};
ghost use Rattle.meaning.specs.Run.{power_on, readings_ok};
ghost use Rattle.run.specs.States.{state_of, state_by, state_words, words_of, state_in};

use super::ages::ages_at;
use super::deadlines::readings_at;
use super::sums::sum_of;
use sets::set::Set;

// A mode set (0: fresh), or in a table run a block number, one reading per transition, and one age per mode.
#[repr(C)]
#[derive(Clone, Copy)]
pub struct State {
    pub at: u32,
    pub readings: [u32; 64],
    pub ages: [u32; 32],
}

// As lent words: the mode set or block, then the readings, then the ages.
pub const STATE_WORDS: usize = 97;

// Before any tick.
pub fn fresh() -> State
    ensures { state_of result ≡ power_on }
{
    let readings = [0u32; 64];
    let ages = [0u32; 32];
    State {
        at: 0,
        readings,
        ages,
    }
}

// After a tick, by the deadlines of the timers that run, none of which is past, and the ticks in which the ages of the active modes
// reach their limit; none of these modes is yet to be entered.
pub fn state_at(
    ends: &[u64; 64],
    limits: &[u64; 32],
    at: u32,
    active: u32,
    timers: u64,
    tick: u64,
) -> State
    requires { ((t : ℕ) → has timers t ≡ true → tick ≤ get_or ends.now t 0)
        × ((m : ℕ) → has active m ≡ true → get_or limits.now m 0 ≤ tick + 65535) }
    ensures { state_of result ≡ state_by ends.now limits.now at active timers tick }
{
    let readings = readings_at(ends, timers, tick);
    let ages = ages_at(limits, active, tick);
    State { at, readings, ages }
}

// The state that lent words hold.
pub fn from_words(words: &[u32]) -> State
    requires { state_words ≤ length words.now }
    ensures { state_of result ≡ state_in words.now }
{
    let mut readings = [0u32; 64];
    let mut ages = [0u32; 32];
    readings.copy_from_slice(&words[1..65]);
    ages.copy_from_slice(&words[65..STATE_WORDS]);
    State {
        at: words[0],
        readings,
        ages,
    }
}

// A state into lent words; those after it stay.
pub fn put_state(words: &mut [u32], state: State)
    requires { state_words ≤ length words.old }
    ensures { words.new ≡ overwritten (words_of (state_of state)) words.old }
{
    words[0] = state.at;
    words[1..65].copy_from_slice(&state.readings);
    words[65..STATE_WORDS].copy_from_slice(&state.ages);
}

// A running reading is 1 to its delay; it is a word.
fn running_ok(most: u64, r: u32) -> bool
    ensures { (result ≡ (leb 1 r && leb r most)) × (r < 2 ^ 32) }
{
    1 <= r && (r as u64) <= most
}

// Every running reading is 1 to its delay, and the others are 0: all readings add up to what the running ones do.
pub fn readings_ok(delays: &[u64; 64], timers: u64, readings: &[u32; 64]) -> bool
    ensures { result ≡ readings_ok timers (λ t. get_or delays.now t 0) readings.now }
{
    let mut sum = 0u64;
    for t in timers.members() {
        if !running_ok(delays[t], readings[t]) {
            return false;
        }
        sum += u64::from(readings[t]);
    }
    sum == sum_of(readings)
}
