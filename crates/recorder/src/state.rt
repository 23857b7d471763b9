// Which states refusal 14 admits.
ghost use Rattle.std.specs.Prelude.{◌≡◌, true};
ghost use Rattle.meaning.specs.Lists.{row_from};
ghost use Rattle.meaning.specs.Table.{table_ok};
ghost use Rattle.meaning.specs.TableRun.{table_timers_ok, table_state_ok};
ghost use Rattle.run.specs.States.{state_of};
ghost use Rattle.recorder.specs.Timers.{timer_delay_in};

use run::ages::ages_ok;
use run::state::{State, readings_ok};
use table::words::{block_count, offset, timers_at};

// The block exists, and its readings are sound. Block 0 has no timers, so with it the state is fresh.
fn timers_ok(table: &[u32], delays: &[u64; 64], state: State) -> bool
    requires { (table_ok table.now ≡ true) × (delays.now ≡ row_from 0 64 (timer_delay_in table.now)) }
    ensures { result ≡ table_timers_ok table.now (state_of state) }
{
    let b = state.at as usize;
    if block_count(table) <= b {
        return false;
    }
    let at = offset(table, b);
    readings_ok(delays, timers_at(table, at), &state.readings)
}

// That, and the ages are sound: 14 if not.
pub fn state_ok(table: &[u32], delays: &[u64; 64], state: State) -> bool
    requires { (table_ok table.now ≡ true) × (delays.now ≡ row_from 0 64 (timer_delay_in table.now)) }
    ensures { result ≡ table_state_ok table.now (state_of state) }
{
    if !timers_ok(table, delays, state) {
        return false;
    }
    let ages = state.ages;
    let at = offset(table, state.at as usize);
    ages_ok(table[at], &ages)
}
