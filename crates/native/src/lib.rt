// The operations under C names, for a program in another language. A slice passes as a pointer and a length. Each answers the
// refusal's number, 0 for none, and puts its counts into `info`; a state is 97 lent words: the mode set or block, readings, ages.
// With fewer words in `info` or in the state than asked for, a call does nothing and answers 4294967295.
#![tactic(auto)]

ghost use Rattle.std.specs.Prelude.{◌≡◌, cond, [], ◌∷◌, ◌≤◌, length};
ghost use Rattle.meaning.specs.Lists.{overwritten};
ghost use Rattle.meaning.specs.Check.{sheet_refusal};
ghost use Rattle.meaning.specs.Table.{table_ok};
ghost use Rattle.meaning.specs.Acceptance.{accept_refusal};
ghost use Rattle.meaning.specs.Milliseconds.{milliseconds};
ghost use Rattle.meaning.specs.Refusal.{number_of, number_or_0};
ghost use Rattle.meaning.specs.Stations.{serve_stations};
ghost use Rattle.stations.specs.Stations.{stations_of};
ghost use Rattle.native.specs.Calls.{compile_call, within_call, sheet_call, table_call, why_call};

use meaning::refusal::{Refusal, number};
use reaction::why::Why;
use run::state::{STATE_WORDS, from_words, put_state};
use sheet::within::masks_of;
use stations::{Served, Station};

// What is answered where too few words are lent.
const NOTHING_DONE: u32 = 4294967295;

#[unsafe(no_mangle)]
pub extern "C" fn modechart_check(sheet: &[u32]) -> u32
    ensures { result ≡ sheet_refusal sheet.now }
{
    number(sheet::check(sheet).err())
}

// info: f, the table's length.
#[unsafe(no_mangle)]
pub extern "C" fn modechart_compile(
    sheet: &[u32],
    table: &mut [u32],
    work: &mut [u32],
    info: &mut [u64],
) -> u32
    ensures { record { answer = result; table = table.new; work = work.new; info = info.new }
        ≡ compile_call sheet.now table.old work.old info.old }
{
    if info.len() < 2 {
        return NOTHING_DONE;
    }
    let c = compiler::compile(sheet, table, work);
    info[0] = c.f as u64;
    info[1] = c.table_length.unwrap_or(0) as u64;
    number(c.table_length.err())
}

#[unsafe(no_mangle)]
pub extern "C" fn modechart_check_table(table: &[u32]) -> u32
    ensures { result ≡ cond (table_ok table.now) 0 15 }
{
    if table::table_ok(table) {
        return 0;
    }
    u32::from(Refusal::Layout)
}

// A table from elsewhere against its sheet; nothing is lent.
#[unsafe(no_mangle)]
pub extern "C" fn modechart_accept(sheet: &[u32], table: &[u32]) -> u32
    ensures { result ≡ accept_refusal sheet.now table.now }
{
    number(acceptance::accept(sheet, table).err())
}

// masks: 32 words, of each mode the modes strictly within it, 0 for a number that is no mode. A refusal leaves them as they were.
#[unsafe(no_mangle)]
pub extern "C" fn modechart_within(sheet: &[u32], masks: &mut [u32]) -> u32
    ensures { record { answer = result; masks = masks.new }
        ≡ within_call sheet.now masks.old }
{
    if masks.len() < 32 {
        return NOTHING_DONE;
    }
    match masks_of(sheet) {
        Ok(given) => {
            masks[..32].copy_from_slice(&given);
            0
        }
        Err(why) => u32::from(why),
    }
}

#[unsafe(no_mangle)]
pub extern "C" fn modechart_milliseconds(tick: u32, delays: &[u32], results: &mut [u32]) -> u32
    ensures { record { refusal = result; results = results.new }
        ≡ milliseconds tick delays.now results.old }
{
    number(milliseconds::in_ticks(tick, delays, results).err())
}

// numbers: 64 bytes for each input set. info: ticks done, the total of rounds (whole times 2^32, and the rest).
#[unsafe(no_mangle)]
pub extern "C" fn modechart_sheet_run(
    sheet: &[u32],
    state: &mut [u32],
    inputs: &[u32],
    out: &mut [u32],
    numbers: &mut [u8],
    info: &mut [u64],
) -> u32
    ensures { record {
      call = record { answer = result; state = state.new; out = out.new; info = info.new };
      numbers = numbers.new;
    }
        ≡ sheet_call sheet.now state.old inputs.now out.old numbers.old
        info.old }
{
    if info.len() < 3 || state.len() < STATE_WORDS {
        return NOTHING_DONE;
    }
    let ran = simulator::sheet_run::run(sheet, from_words(state), inputs, out, numbers);
    info[0] = ran.done.0 as u64;
    info[1] = ran.rounds.0;
    info[2] = ran.rounds.1;
    put_state(state, ran.state);
    number(ran.refusal)
}

// info: ticks done.
#[unsafe(no_mangle)]
pub extern "C" fn modechart_table_run(
    table: &[u32],
    state: &mut [u32],
    inputs: &[u32],
    out: &mut [u32],
    info: &mut [u64],
) -> u32
    ensures { record { answer = result; state = state.new; out = out.new; info = info.new }
        ≡ table_call table.now state.old inputs.now out.old info.old }
{
    if info.len() < 1 || state.len() < STATE_WORDS {
        return NOTHING_DONE;
    }
    let ran = recorder::table_run::run(table, from_words(state), inputs, out);
    info[0] = ran.done.0 as u64;
    put_state(state, ran.state);
    number(ran.refusal)
}

// The allowance spent, stored; answers the refusal's number.
fn put_served(served: Served, spent: &mut u64) -> u32
    ensures { (result ≡ number_or_0 served.refusal) × (spent.new ≡ served.spent) }
{
    *spent = served.spent;
    number(served.refusal)
}

// A station is 103 words: its state's 97, position, stopped mark, start and length of its part of the input list, start and length of its
// part of the output list. spent: the ticks served. A refused call changes no station and no output word, and spends 0.
#[unsafe(no_mangle)]
pub extern "C" fn modechart_stations(
    stations: &mut [Station],
    table: &[u32],
    inputs: &[u32],
    out: &mut [u32],
    allowance: u64,
    spent: &mut u64,
) -> u32
    ensures { record {
      refusal = result;
      spent = spent.new;
      stations = stations_of stations.new;
      out = out.new;
    }
        ≡ serve_stations table.now (stations_of stations.old) inputs.now out.old
        allowance }
{
    let served = stations::serve(stations, table, inputs, out, allowance);
    put_served(served, spent)
}

// A reason's number and its values put at the front of lent words; answers 0.
fn put_reason(info: &mut [u64], reason: u32, first: u32, second: u32) -> u32
    requires { 3 ≤ length info.old }
    ensures { (result ≡ 0) × (info.new ≡ overwritten (reason ∷ first ∷ second ∷ []) info.old) }
{
    info[0] = reason as u64;
    info[1] = first as u64;
    info[2] = second as u64;
    0
}

// info: the reason (0 source never active, 1 never triggered, 2 gave way, 3 taken) and two values: for 2 the transition that it gave
// way to, for 3 the round and the alternative, else 0. A refusal leaves info as it was. The state is not changed.
#[unsafe(no_mangle)]
pub extern "C" fn modechart_why(
    sheet: &[u32],
    state: &[u32],
    input: u32,
    transition: u32,
    info: &mut [u64],
) -> u32
    ensures { record { answer = result; info = info.new }
        ≡ why_call sheet.now state.now input transition info.old }
{
    if info.len() < 3 || state.len() < STATE_WORDS {
        return NOTHING_DONE;
    }
    match simulator::why::why(sheet, from_words(state), input, transition) {
        Err(refusal) => u32::from(refusal),
        Ok(Why::NeverActive) => put_reason(info, 0, 0, 0),
        Ok(Why::NeverTriggered) => put_reason(info, 1, 0, 0),
        Ok(Why::GaveWay(to)) => put_reason(info, 2, to, 0),
        Ok(Why::Taken(round, alternative)) => put_reason(info, 3, round, alternative as u32),
    }
}
