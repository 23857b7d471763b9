// The table run.
ghost use Rattle.std.specs.Prelude.{◌≡◌, not, ◌&&◌, true, List, ℕ, ◌+◌, ◌*◌, ◌^◌, ◌≤◌, ◌<◌, eqb, length, get_or};
ghost use Rattle.sets.specs.Sets.{has, minus, set_of};
ghost use Rattle.rows.specs.Over.{five_of};
ghost use Rattle.meaning.specs.Lists.{row_from};
ghost use Rattle.meaning.specs.Refusal.{number_or_0};
ghost use Rattle.meaning.specs.Run.{ran};
ghost use Rattle.meaning.specs.Table.{b_in, mask_in, table_ok};
ghost use Rattle.meaning.specs.TableRun.{table_state_ok, table_ticks, table_run};
ghost use Rattle.run.specs.States.{state_of};
ghost use Rattle.run.specs.Entries.{limits_by};
ghost use Rattle.run.specs.Runs.{ended_run};
ghost use Rattle.recorder.specs.Timers.{timer_delay_in, timers_from, BlockTimers};
ghost use Rattle.recorder.specs.Runs.{ran_of, TableBlockOf, five_in};

use super::state::state_ok;
use super::timers::{delays, put_block_timers, sources, started, timers_from};
use meaning::refusal::Refusal;
use rows::{Five, put_five};
use run::ages::{age_limits, enter_by_words, note_entries};
use run::counts::Ticks;
use run::deadlines::{deadlines, due_by, restart, soon_after, soon_with};
use run::state::{State, state_at};
use sets::set::Set;
use table::table_ok;
use table::words::{block_count, event_count, offset};

// What a table run returns: ticks done, the state after them, the refusal.
#[derive(Clone, Copy)]
pub struct Ran {
    pub done: Ticks,
    pub state: State,
    pub refusal: Option<Refusal>,
}

// A block: its number, where its words begin, its running timers.
#[derive(Clone, Copy)]
struct TableBlock {
    number: u32,
    at: usize,
    timers: u64,
}

fn block_at(table: &[u32], timers: &[u64], number: u32) -> TableBlock
    requires { (table_ok table.now ≡ true) × BlockTimers table.now timers.now × (number < b_in table.now) }
    ensures { (result.number ≡ number) × TableBlockOf table.now result }
{
    let b = number as usize;
    let at = offset(table, b);
    TableBlock {
        number,
        at,
        timers: timers[b],
    }
}

// Its mode mask, which is read where it is asked for: one word less to keep from tick to tick.
fn mask_of(table: &[u32], b: TableBlock) -> u32
    requires { (table_ok table.now ≡ true) × (b.number < b_in table.now) × TableBlockOf table.now b }
    ensures { result ≡ mask_in table.now b.number }
{
    let at = b.at;
    table[at]
}

// The number of a cell: due timers, then input set.
fn cell_number(due: u64, input: u32) -> usize
    requires { due + input < 4096 }
    ensures { result ≡ due + input }
{
    (due as usize) + (input as usize)
}

// The five words of the cell that begins at a place.
fn five_at(table: &[u32], cell: usize) -> Five
    requires { cell + 6 ≤ length table.now }
    ensures { five_of result ≡ five_in table.now cell }
{
    Five {
        entered: table[cell + 1],
        exited: table[cell + 2],
        active: table[cell + 3],
        low: table[cell + 4],
        high: table[cell + 5],
    }
}

// Of the timers that go on, one did not run or is due: it has no reading left.
fn is_stale(timers: u64, due: u64, lasting: u64) -> bool
    ensures { result ≡ not (eqb (minus lasting (minus timers due)) 0) }
{
    lasting.minus(timers.minus(due)) != 0
}

// The tick stays in its block, with no timer due and no mode entered: nothing is to note.
fn stays(next: u32, number: u32, due: u64, entered: u32) -> bool
    ensures { result ≡ (eqb next number && eqb due 0 && eqb entered 0) }
{
    if next != number {
        return false;
    }
    if due != 0 {
        return false;
    }
    entered == 0
}

// A run that ends after some ticks in a block; no deadline of its timers is past. The modes of `seen` were last entered as the words
// of the ticks say; none of the block's is yet to be entered.
fn ended(
    table: &[u32],
    ends: &[u64; 64],
    limits: &mut [u64; 32],
    out: &[u32],
    seen: u32,
    b: TableBlock,
    done: usize,
    why: Option<Refusal>,
) -> Ran
    requires { (table_ok table.now ≡ true)
        × (b.number < b_in table.now)
        × TableBlockOf table.now b
        × ((t : ℕ) → has b.timers t ≡ true → done ≤ get_or ends.now t 0)
        × ((m : ℕ) → has (mask_in table.now b.number) m ≡ true → get_or (limits_by limits.old out.now seen done) m 0 ≤ done + 65535)
        × (length limits.old ≡ 32)
        × (5 * done ≤ length out.now) }
    ensures { (words : List ℕ) →
        ran_of result words
        ≡ ended_run ends.now (limits_by limits.old out.now seen done)
        b.number (mask_in table.now b.number) b.timers done 0 (number_or_0 why) words }
{
    enter_by_words(out, limits, seen, done);
    let mask = mask_of(table, b);
    let state = state_at(ends, limits, b.number, mask, b.timers, done as u64);
    Ran {
        done: Ticks(done),
        state,
        refusal: why,
    }
}

// Tick by tick, with what the table says of its timers: 13, then 15.
pub fn ticks_with(
    table: &[u32],
    timers: &[u64],
    delays: &[u64; 64],
    by_source: &[u64; 32],
    timed: u32,
    start: State,
    inputs: &[u32],
    out: &mut [u32],
) -> Ran
    requires { (table_ok table.now ≡ true)
        × BlockTimers table.now timers.now
        × (delays.now ≡ row_from 0 64 (timer_delay_in table.now))
        × (by_source.now ≡ row_from 0 32 (timers_from table.now))
        × (timed ≡ set_of 32 (λ m. not (eqb (get_or by_source.now m 0) 0)))
        × (table_state_ok table.now (state_of start) ≡ true)
        × (5 * length inputs.now ≤ length out.old) }
    ensures { ran_of result out.new
        ≡ ran out.old (table_ticks table.now inputs.now (state_of start)) }
{
    let k = event_count(table);
    // A copy: the loop reads it beside its other arrays, and keeps no address for it.
    let from = *by_source;
    let readings = start.readings;
    let ages = start.ages;
    let mut ends = deadlines(readings);
    let mut limits = age_limits(ages);
    let mut b = block_at(table, timers, start.at);
    let mut seen = 0u32;
    let mut soon = 0u64;
    for (i, &input) in inputs.iter().enumerate() {
        if input >> k != 0 {
            return ended(
                table,
                &ends,
                &mut limits,
                out,
                seen,
                b,
                i,
                Some(Refusal::InputSet),
            );
        }
        let now = (i + 1) as u64;
        let d = due_by(&ends, b.timers, soon, now, k as usize);
        let cell = b.at + 6 * cell_number(d.number, input) + 3;
        let next = table[cell];
        let entered = table[cell + 1];
        if stays(next, b.number, d.set, entered) {
            soon = soon_after(&ends, b.timers, soon, now);
        } else {
            let to = block_at(table, timers, next);
            let again = to.timers & started(&from, entered & timed);
            if is_stale(b.timers, d.set, to.timers.minus(again)) {
                return ended(
                    table,
                    &ends,
                    &mut limits,
                    out,
                    seen,
                    b,
                    i,
                    Some(Refusal::Layout),
                );
            }
            restart(delays, &mut ends, again, now);
            soon = soon_with(again, soon);
            let was = mask_of(table, b);
            let is = mask_of(table, to);
            seen = note_entries(&mut limits, seen, was, is, entered, i);
            b = to;
        }
        put_five(out, 5 * i, five_at(table, cell));
    }
    ended(table, &ends, &mut limits, out, seen, b, inputs.len(), None)
}

// A run that stops before any tick.
pub fn stops(state: State, why: Option<Refusal>) -> Ran
    ensures { (out : List ℕ) →
        ran_of result out ≡ record { done = 0; state = state_of state; refusal = number_or_0 why; rounds = 0; out = out } }
{
    Ran {
        done: Ticks(0),
        state,
        refusal: why,
    }
}

// Tick by tick on a table of at most N blocks.
fn ticks_sized<const N: usize>(
    table: &[u32],
    delays: &[u64; 64],
    start: State,
    inputs: &[u32],
    out: &mut [u32],
) -> Ran
    requires { (table_ok table.now ≡ true)
        × (delays.now ≡ row_from 0 64 (timer_delay_in table.now))
        × (table_state_ok table.now (state_of start) ≡ true)
        × (5 * length inputs.now ≤ length out.old)
        × (b_in table.now ≤ N)
        × (N ≤ 4096) }
    ensures { ran_of result out.new
        ≡ ran out.old (table_ticks table.now inputs.now (state_of start)) }
{
    let mut timers = [0u64; N];
    put_block_timers(table, &mut timers);
    let from = timers_from(table);
    let timed = sources(&from);
    ticks_with(table, &timers, delays, &from, timed, start, inputs, out)
}

// Tick by tick: 13, then 15. The timers of few blocks have an array that is soon cleared.
fn ticks(table: &[u32], delays: &[u64; 64], start: State, inputs: &[u32], out: &mut [u32]) -> Ran
    requires { (table_ok table.now ≡ true)
        × (delays.now ≡ row_from 0 64 (timer_delay_in table.now))
        × (table_state_ok table.now (state_of start) ≡ true)
        × (5 * length inputs.now ≤ length out.old) }
    ensures { ran_of result out.new
        ≡ ran out.old (table_ticks table.now inputs.now (state_of start)) }
{
    if inputs.is_empty() {
        return stops(start, None);
    }
    if block_count(table) <= 64 {
        return ticks_sized::<64>(table, delays, start, inputs, out);
    }
    ticks_sized::<4096>(table, delays, start, inputs, out)
}

// The table run, on any table words, state, input sets and output words: 15, 14, 12, then tick by tick 13, then 15. A
// refused tick leaves the state of the tick before; only the five words of each done tick are written, at 5p.
pub fn run(table: &[u32], state: State, inputs: &[u32], out: &mut [u32]) -> Ran
    ensures { ran_of result out.new ≡ table_run table.now (state_of state) inputs.now out.old }
{
    if !table_ok(table) {
        return stops(state, Some(Refusal::Layout));
    }
    let delays = delays(table);
    if !state_ok(table, &delays, state) {
        return stops(state, Some(Refusal::State));
    }
    if out.len() / 5 < inputs.len() {
        return stops(state, Some(Refusal::ShortOutput));
    }
    ticks(table, &delays, state, inputs, out)
}
