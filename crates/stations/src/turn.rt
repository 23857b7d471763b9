// The turn of a station, by value: before any is served a look at its parts, then its turns.
ghost use Rattle.std.specs.Prelude.{◌≡◌, true, false, ◌&&◌, ℕ, ◌+◌, ◌^◌, ◌<◌, ◌≤◌, min, length, get_or, drop};
ghost use Rattle.sets.specs.Sets.{every};
ghost use Rattle.meaning.specs.Refusal.{number_or_0};
ghost use Rattle.meaning.specs.Table.{table_ok};
ghost use Rattle.meaning.specs.Stations.{has_work};
ghost use Rattle.recorder.specs.Timers.{Noted};
ghost use Rattle.stations.specs.declared.Phase.TheVariants.{Looking};
ghost use Rattle.stations.specs.Stations.{station_of};
ghost use Rattle.stations.specs.Serving.{part_words, work_words, apart_from, parts_within, is_looking, Ready, Looked, Given, Turned};

use super::parts::{apart, parts_within, put_parts};
use super::scheduling::{looked, served};
use super::{PART_WORDS, Phase, Schedule, Station};
use meaning::refusal::number;
use recorder::notes::{put_notes, run_noted};
use recorder::table_run::Ran;

// The station and the schedule after its turn.
#[derive(Clone, Copy)]
pub struct Turn {
    pub station: Station,
    pub schedule: Schedule,
}

// A station has no mark, and an input set to come.
fn has_work(s: Station) -> bool
    ensures { result ≡ has_work (station_of s) }
{
    if s.mark != 0 {
        return false;
    }
    s.position < s.in_length
}

// At the first station the table is noted, behind the words for the parts.
fn note_table(table: &[u32], work: &mut [u64], at: usize)
    requires { (table_ok table.now ≡ true)
        × (length work.old ≡ work_words)
        × (0 < at → Noted table.now (drop part_words work.old)) }
    ensures { Noted table.now (drop part_words work.new)
        × ((i : ℕ) → i < part_words → get_or work.new i 0 ≡ get_or work.old i 0) }
{
    if at == 0 {
        put_notes(table, &mut work[PART_WORDS..]);
    }
}

// A station's parts fit their lists, and share no word with those of the stations before it.
fn parts_well(work: &[u64], at: usize, s: Station, sets: usize, words: usize) -> bool
    requires { (at ≤ 64) × (part_words ≤ length work.now) }
    ensures { result ≡ (parts_within sets words s && every at (apart_from work.now s)) }
{
    if !parts_within(sets, words, s) {
        return false;
    }
    apart(work, at, s)
}

// A look at a station's parts, which are noted.
fn look(
    s: Station,
    c: Schedule,
    work: &mut [u64],
    table: &[u32],
    inputs: &[u32],
    out: &[u32],
) -> Schedule
    requires { Ready table.now inputs.now s c work.old out.now × (c.phase ≡ Looking) }
    ensures { Looked table.now inputs.now s c work.old out.now
        s result work.new out.now }
{
    let at = c.at;
    note_table(table, work, at);
    let well = parts_well(work, at, s, inputs.len(), out.len());
    put_parts(work, at, s);
    looked(c, well, has_work(s))
}

// How many ticks a station with work can get at once: of its turns, of the ticks left, of its sets to come.
fn ticks_at_once(turns: u64, left: u64, sets: u32) -> usize
    ensures { result ≡ min turns (min left sets) }
{
    turns.min(left).min(u64::from(sets)) as usize
}

// A station after a run of its own.
fn after_run(s: Station, ran: Ran) -> Station
    requires { s.position + ran.done.0 < 2 ^ 32 }
    ensures { result ≡ record {
      state = ran.state;
      position = s.position + ran.done.0;
      mark = number_or_0 ran.refusal;
      in_start = s.in_start;
      in_length = s.in_length;
      out_start = s.out_start;
      out_length = s.out_length;
    } }
{
    let state = ran.state;
    let done = ran.done.0;
    Station {
        state,
        position: s.position + (done as u32),
        mark: number(ran.refusal),
        in_start: s.in_start,
        in_length: s.in_length,
        out_start: s.out_start,
        out_length: s.out_length,
    }
}

// The turns of a station that has work: one run on its own sets.
fn give_turns(
    s: Station,
    c: Schedule,
    work: &[u64],
    table: &[u32],
    inputs: &[u32],
    out: &mut [u32],
) -> Turn
    requires { Ready table.now inputs.now s c work.now out.old
        × (is_looking c.phase ≡ false)
        × (has_work (station_of s) ≡ true) }
    ensures { Given table.now inputs.now s c work.now out.old
        result.station result.schedule work.now out.new }
{
    let n = ticks_at_once(c.turns, c.left, s.in_length - s.position);
    let i = (s.in_start as usize) + (s.position as usize);
    let e = i + n;
    let o = (s.out_start as usize) + 5 * (s.position as usize);
    let f = o + 5 * n;
    let ran = run_noted(
        table,
        &work[PART_WORDS..],
        s.state,
        &inputs[i..e],
        &mut out[o..f],
    );
    let station = after_run(s, ran);
    let done = ran.done.0;
    let left = c.left - (done as u64);
    let schedule = served(c, left, has_work(station));
    Turn { station, schedule }
}

// The turns of a station, of which only those with a tick or a stop do anything.
fn give(
    s: Station,
    c: Schedule,
    work: &[u64],
    table: &[u32],
    inputs: &[u32],
    out: &mut [u32],
) -> Turn
    requires { Ready table.now inputs.now s c work.now out.old × (is_looking c.phase ≡ false) }
    ensures { Given table.now inputs.now s c work.now out.old
        result.station result.schedule work.now out.new }
{
    if has_work(s) {
        return give_turns(s, c, work, table, inputs, out);
    }
    let schedule = served(c, c.left, false);
    Turn {
        station: s,
        schedule,
    }
}

// A turn.
pub fn take_turn(
    s: Station,
    c: Schedule,
    work: &mut [u64],
    table: &[u32],
    inputs: &[u32],
    out: &mut [u32],
) -> Turn
    requires { Ready table.now inputs.now s c work.old out.old }
    ensures { Turned table.now inputs.now s c work.old out.old
        result.station result.schedule work.new out.new }
{
    match c.phase {
        Phase::Looking => {
            let schedule = look(s, c, work, table, inputs, out);
            Turn {
                station: s,
                schedule,
            }
        }
        Phase::Serving | Phase::Over(_) => give(s, c, work, table, inputs, out),
    }
}
