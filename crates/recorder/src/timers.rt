// What a table says of its timers, worked out once per call.
ghost use Rattle.std.specs.Prelude.{◌≡◌, not, true, ℕ, ◌^◌, ◌<◌, ◌≤◌, eqb, length, get_or};
ghost use Rattle.sets.specs.Sets.{has, set_of, some_in};
ghost use Rattle.meaning.specs.Lists.{row_from};
ghost use Rattle.meaning.specs.Table.{b_in, table_ok};
ghost use Rattle.recorder.specs.Timers.{timer_delay_in, timers_from, BlockTimers};

use sets::set::Set;
use table::words::{block_count, offset, timer_delay, timer_source, timers_at, transition_count};

// The delay of each timer, 0 for other transitions.
pub fn delays(table: &[u32]) -> [u64; 64]
    requires { table_ok table.now ≡ true }
    ensures { result ≡ row_from 0 64 (timer_delay_in table.now) }
{
    let mut r = [0u64; 64];
    for t in 0..transition_count(table) {
        r[t] = timer_delay(table, t);
    }
    r
}

// The timers of each source.
pub fn timers_from(table: &[u32]) -> [u64; 32]
    requires { table_ok table.now ≡ true }
    ensures { result ≡ row_from 0 32 (timers_from table.now) }
{
    let mut r = [0u64; 32];
    for t in 0..transition_count(table) {
        if timer_delay(table, t) != 0 {
            r[timer_source(table, t)] |= u64::single(t);
        }
    }
    r
}

// The modes that are the source of a timer.
pub fn sources(from: &[u64; 32]) -> u32
    ensures { result ≡ set_of 32 (λ m. not (eqb (get_or from.now m 0) 0)) }
{
    let mut r = 0u32;
    for (m, &timers) in from.iter().enumerate() {
        if timers != 0 {
            r |= u32::single(m);
        }
    }
    r
}

// The timers whose source is in a set.
pub fn started(from: &[u64; 32], set: u32) -> u64
    requires { (m : ℕ) → m < 32 → get_or from.now m 0 < 2 ^ 64 }
    ensures { result ≡ set_of 64 (λ t. some_in 32 set (λ m. has (get_or from.now m 0) t)) }
{
    let mut r = 0u64;
    for m in set.members() {
        r |= from[m];
    }
    r
}

// The running timers of each block, in words lent for them.
pub fn put_block_timers(table: &[u32], timers: &mut [u64])
    requires { (table_ok table.now ≡ true) × (b_in table.now ≤ length timers.old) }
    ensures { BlockTimers table.now timers.new }
{
    for b in 0..block_count(table) {
        timers[b] = timers_at(table, offset(table, b));
    }
}
