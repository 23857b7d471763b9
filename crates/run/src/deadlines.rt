// Readings during a run: for each timer its deadline, the tick, counted from 1 in the call, in which its reading is 0.
ghost use Rattle.std.specs.Prelude.{◌≡◌, cond, true, ℕ, ◌+◌, ◌-◌, ◌*◌, ◌%◌, ◌^◌, ◌<◌, ◌≤◌, eqb, length, get_or};
ghost use Rattle.sets.specs.Sets.{has, those, members, size};
ghost use Rattle.meaning.specs.Lists.{row_from};
ghost use Rattle.meaning.specs.TableRun.{due_number};

use sets::set::Set;

// The deadlines of readings at the start of a call.
pub fn deadlines(readings: [u32; 64]) -> [u64; 64]
    ensures { result ≡ readings }
{
    // A `map` over the array costs a run of one tick half its time.
    let mut ends = [0u64; 64];
    for (t, &reading) in readings.iter().enumerate() {
        ends[t] = u64::from(reading);
    }
    ends
}

// The readings of the running timers after a tick; no deadline of theirs is past.
pub fn readings_at(ends: &[u64; 64], timers: u64, tick: u64) -> [u32; 64]
    requires { (t : ℕ) → has timers t ≡ true → tick ≤ get_or ends.now t 0 }
    ensures { result ≡ row_from 0 64 (λ t. cond (has timers t) ((get_or ends.now t 0 - tick) % 2 ^ 32) 0) }
{
    let mut r = [0u32; 64];
    for t in timers.members() {
        r[t] = ((ends[t] - tick) % 4294967296) as u32;
    }
    r
}

// The timers of a set that are due in a tick: as a set, and as the number that they make, the lowest timer in bit `low`.
#[derive(Clone, Copy)]
pub struct DueTimers {
    pub set: u64,
    pub number: u64,
}

pub fn due(ends: &[u64; 64], timers: u64, tick: u64, low: usize) -> DueTimers
    requires { low + size 64 timers ≤ 64 }
    ensures { (result.set ≡ those 64 timers (λ t. eqb (get_or ends.now t 0) tick))
        × (result.number ≡ 2 ^ low * due_number (members 64 timers) result.set) }
{
    let mut set = 0u64;
    let mut number = 0u64;
    let mut place = low;
    for t in timers.members() {
        let is_due = ends[t] == tick;
        set |= u64::single_if(is_due, t);
        number += u64::single_if(is_due, place);
        place += 1;
    }
    DueTimers { set, number }
}

// The same, where none of them is due before the tick soon.
pub fn due_by(ends: &[u64; 64], timers: u64, soon: u64, tick: u64, low: usize) -> DueTimers
    requires { ((t : ℕ) → has timers t ≡ true → soon ≤ get_or ends.now t 0) × (low + size 64 timers ≤ 64) }
    ensures { (result.set ≡ those 64 timers (λ t. eqb (get_or ends.now t 0) tick))
        × (result.number ≡ 2 ^ low * due_number (members 64 timers) result.set) }
{
    if tick < soon {
        return DueTimers { set: 0, number: 0 };
    }
    due(ends, timers, tick, low)
}

// A tick before which no timer of a set is due.
pub fn soonest(ends: &[u64; 64], timers: u64) -> u64
    ensures { (t : ℕ) → has timers t ≡ true → result ≤ get_or ends.now t 0 }
{
    let mut soon = u64::MAX;
    for t in timers.members() {
        let e = ends[t];
        if e < soon {
            soon = e;
        }
    }
    soon
}

// The same after a tick, by such a tick before it.
pub fn soon_after(ends: &[u64; 64], timers: u64, soon: u64, tick: u64) -> u64
    requires { (t : ℕ) → has timers t ≡ true → soon ≤ get_or ends.now t 0 }
    ensures { (t : ℕ) → has timers t ≡ true → result ≤ get_or ends.now t 0 }
{
    if soon <= tick {
        return soonest(ends, timers);
    }
    soon
}

// After a tick that moves: the tick before which no timer is due, as it was, or 0 where some timers start.
pub fn soon_with(started: u64, soon: u64) -> u64
    ensures { (result ≤ soon) × ((t : ℕ) → has started t ≡ true → result ≡ 0) }
{
    if started != 0 {
        return 0;
    }
    soon
}

// The timers of a set start at their delays in a tick.
pub fn restart(delays: &[u64; 64], ends: &mut [u64; 64], set: u64, tick: u64)
    requires { (length ends.old ≡ 64) × (tick < 2 ^ 62) × ((t : ℕ) → t < 64 → get_or delays.now t 0 < 2 ^ 32) }
    ensures { ends.new
        ≡ row_from 0 64 (λ t.
        cond (has set t) (tick + get_or delays.now t 0) (get_or ends.old t 0)) }
{
    for t in set.members() {
        ends[t] = tick + delays[t];
    }
}
