// Stations on one table under one tick allowance. All that is decided is in functions that take a station by value. A station that has
// several turns to come before the allowance can be spent gets them at once: a station's ticks depend on no other station, so this is
// what pass after pass gives.
#![tactic(auto)]

ghost use Rattle.std.specs.Prelude.{◌≡◌, ◌-◌, ◌<◌, length, get_or};
ghost use Rattle.meaning.specs.Stations.{serve_stations};
ghost use Rattle.stations.specs.Stations.{unlisted, stations_of, call_of};
ghost use Rattle.stations.specs.Serving.{is_over, refusal_at_end, work_words, Ready, Stepped, first_of, end_of};

use meaning::refusal::Refusal;
use run::state::State;

mod parts;
pub mod scheduling;
pub mod turn;

use scheduling::first_turn;
use turn::take_turn;

// A state, the position in its part of the input list, the stopped mark, and where its parts of the input list and of the output list
// start and how many words they have.
#[repr(C)]
#[derive(Clone, Copy)]
pub struct Station {
    pub state: State,
    pub position: u32,
    // a number and no Option, since a station passes from C as it lies in memory
    pub mark: u32,
    pub in_start: u32,
    pub in_length: u32,
    pub out_start: u32,
    pub out_length: u32,
}

// Every station's parts are looked at before the first turn is served; in the end no turn comes any more, with the refusal if there is one.
#[derive(Clone, Copy, PartialEq, Eq)]
pub enum Phase {
    Looking,
    Serving,
    Over(Option<Refusal>),
}

impl Phase {
    pub fn is_over(self) -> bool
        ensures { result ≡ is_over self }
    {
        matches!(self, Phase::Over(_))
    }

    // The refusal, if it is over by one.
    pub fn refusal(self) -> Option<Refusal>
        ensures { result ≡ refusal_at_end self }
    {
        match self {
            Phase::Looking | Phase::Serving => None,
            Phase::Over(why) => why,
        }
    }
}

// Whose turn it is, of how many stations; the ticks left; how many turns a station gets at once; how many of the stations before this
// one have work.
#[derive(Clone, Copy)]
pub struct Schedule {
    pub phase: Phase,
    pub at: usize,
    pub count: usize,
    pub left: u64,
    pub turns: u64,
    pub working: u64,
}

// The work words of a call: four for the parts of each of 64 stations, then what is noted of the table.
pub const PART_WORDS: usize = 256;

pub const WORK_WORDS: usize = 4449;

// What a call returns: the ticks served, and the refusal.
#[derive(Clone, Copy)]
pub struct Served {
    pub spent: u64,
    pub refusal: Option<Refusal>,
}

// A turn: the station is taken out, served by value and put back.
pub fn serve_one(
    stations: &mut [Station],
    c: Schedule,
    work: &mut [u64],
    table: &[u32],
    inputs: &[u32],
    out: &mut [u32],
) -> Schedule
    requires { (c.at < length stations.old)
        × Ready table.now inputs.now (get_or stations.old c.at unlisted) c work.old out.old }
    ensures { Stepped table.now inputs.now c stations.old work.old out.old
        result stations.new work.new out.new }
{
    let at = c.at;
    let s = stations[at];
    let t = take_turn(s, c, work, table, inputs, out);
    stations[at] = t.station;
    t.schedule
}

// Turns until there is none.
pub fn serve_all(
    stations: &mut [Station],
    start: Schedule,
    work: &mut [u64],
    table: &[u32],
    inputs: &[u32],
    out: &mut [u32],
) -> Schedule
    requires { (start ≡ first_of table.now (length stations.old) start.left) × (length work.old ≡ work_words) }
    ensures { end_of start.left result stations.new out.new
        ≡ serve_stations table.now (stations_of stations.old) inputs.now out.old start.left }
{
    let mut c = start;
    // Not a count: the schedule says whose turn comes.
    while !c.phase.is_over() {
        c = serve_one(stations, c, work, table, inputs, out);
    }
    c
}

// The answer, from the schedule at the end.
fn answer(allowance: u64, end: Schedule) -> Served
    ensures { (result.refusal ≡ refusal_at_end end.phase) × (result.spent ≡ (allowance - end.left)) }
{
    let why = end.phase.refusal();
    let left = end.left;
    if allowance < left {
        return Served {
            spent: 0,
            refusal: why,
        };
    }
    Served {
        spent: allowance - left,
        refusal: why,
    }
}

// Serves stations, on any table words, stations, input list and output words: 15, 18, 19, each changing nothing; else passes through the
// stations in number order, one tick each, until the allowance is spent or nobody has work. A tick refused 13 or 15, or a state refused
// 14, stops its station with that number as its mark and costs no tick.
pub fn serve(
    stations: &mut [Station],
    table: &[u32],
    inputs: &[u32],
    out: &mut [u32],
    allowance: u64,
) -> Served
    ensures { call_of result stations.new out.new
        ≡ serve_stations table.now (stations_of stations.old) inputs.now out.old allowance }
{
    let count = stations.len();
    let start = first_turn(table, count, allowance);
    let mut work = [0u64; WORK_WORDS];
    let end = serve_all(stations, start, &mut work, table, inputs, out);
    answer(allowance, end)
}
