// What a table says of its timers, noted in lent words for several runs: 64 delays, the timers of 32 sources, the modes that are
// sources, the running timers of each block.
ghost use Rattle.std.specs.Prelude.{◌≡◌, true, ◌+◌, ◌*◌, ◌≤◌, length, take, drop};
ghost use Rattle.rows.specs.Over.{over};
ghost use Rattle.meaning.specs.Table.{b_in, table_ok};
ghost use Rattle.meaning.specs.TableRun.{table_run};
ghost use Rattle.run.specs.States.{state_of};
ghost use Rattle.recorder.specs.Timers.{Noted};
ghost use Rattle.recorder.specs.Runs.{ran_of};

use super::state::state_ok;
use super::table_run::{Ran, stops, ticks_with};
use super::timers::{delays, put_block_timers, sources, timers_from};
use meaning::refusal::Refusal;
use run::state::State;

// Notes a table of sound layout.
pub fn put_notes(table: &[u32], notes: &mut [u64])
    requires { (table_ok table.now ≡ true) × (97 + b_in table.now ≤ length notes.old) }
    ensures { Noted table.now notes.new }
{
    let delays = delays(table);
    let from = timers_from(table);
    notes[..64].copy_from_slice(&delays);
    notes[64..96].copy_from_slice(&from);
    notes[96] = u64::from(sources(&from));
    put_block_timers(table, &mut notes[97..]);
}

// The table run on a table of sound layout that is noted, with 5 output words for each set: 14, then tick by tick.
pub fn run_noted(table: &[u32], notes: &[u64], state: State, inputs: &[u32], out: &mut [u32]) -> Ran
    requires { (table_ok table.now ≡ true)
        × Noted table.now notes.now
        × (5 * length inputs.now ≤ length out.old) }
    ensures { ran_of result out.new
        ≡ table_run table.now (state_of state) inputs.now out.old }
{
    let mut delays = [0u64; 64];
    delays.copy_from_slice(&notes[..64]);
    if !state_ok(table, &delays, state) {
        return stops(state, Some(Refusal::State));
    }
    let mut from = [0u64; 32];
    from.copy_from_slice(&notes[64..96]);
    let timed = notes[96] as u32;
    ticks_with(
        table,
        &notes[97..],
        &delays,
        &from,
        timed,
        state,
        inputs,
        out,
    )
}
