// Whose turn it is.
ghost use Rattle.std.specs.Prelude.{◌≡◌, ◌+◌, ◌<◌, ◌≤◌};
ghost use Rattle.sets.specs.Sets.{digit};
ghost use Rattle.stations.specs.Serving.{stops_at, sweeps, once_more, next_turn, first_of, looked_of, served_of};

use super::{Phase, Schedule};
use meaning::refusal::Refusal;
use table::table_ok;

// No turn comes any more.
fn stops_at(why: Option<Refusal>, at: usize, count: usize, left: u64) -> Schedule
    ensures { result ≡ stops_at why at count left }
{
    Schedule {
        phase: Phase::Over(why),
        at,
        count,
        left,
        turns: 0,
        working: 0,
    }
}

// A sweep begins: so many turns each that the allowance is good for them, or one.
fn sweep(count: usize, left: u64, working: u64) -> Schedule
    requires { 0 < working }
    ensures { result ≡ sweeps count left working }
{
    let mut turns = left / working;
    if turns == 0 {
        turns = 1;
    }
    Schedule {
        phase: Phase::Serving,
        at: 0,
        count,
        left,
        turns,
        working: 0,
    }
}

// After the last station: a sweep if there are ticks left and some station has work.
fn once_more(count: usize, left: u64, working: u64) -> Schedule
    ensures { result ≡ once_more count left working }
{
    if left == 0 {
        return stops_at(None, count, count, left);
    }
    if working == 0 {
        return stops_at(None, count, count, left);
    }
    sweep(count, left, working)
}

// The first turn of a call: 15, then 18.
pub fn first_turn(table: &[u32], count: usize, allowance: u64) -> Schedule
    ensures { result ≡ first_of table.now count allowance }
{
    if !table_ok(table) {
        return stops_at(Some(Refusal::Layout), 0, count, allowance);
    }
    if count == 0 || 64 < count {
        return stops_at(Some(Refusal::Stations), 0, count, allowance);
    }
    Schedule {
        phase: Phase::Looking,
        at: 0,
        count,
        left: allowance,
        turns: 0,
        working: 0,
    }
}

// One more of the stations that have work.
fn with_work(working: u64, works: bool) -> u64
    requires { working ≤ 64 }
    ensures { result ≡ working + digit works }
{
    if works {
        return working + 1;
    }
    working
}

// The next station's turn.
fn next(c: Schedule, phase: Phase, left: u64, working: u64) -> Schedule
    requires { c.at < c.count }
    ensures { result ≡ next_turn c phase left working }
{
    Schedule {
        phase,
        at: c.at + 1,
        count: c.count,
        left,
        turns: c.turns,
        working,
    }
}

// After a look at a station's parts: 19 if they are not well.
pub fn looked(c: Schedule, well: bool, works: bool) -> Schedule
    requires { (c.at < c.count) × (c.working ≤ 64) }
    ensures { result ≡ looked_of c well works }
{
    if !well {
        return stops_at(Some(Refusal::Parts), c.at + 1, c.count, c.left);
    }
    let working = with_work(c.working, works);
    if c.at + 1 < c.count {
        return next(c, Phase::Looking, c.left, working);
    }
    once_more(c.count, c.left, working)
}

// After a station's turns.
pub fn served(c: Schedule, left: u64, works: bool) -> Schedule
    requires { (c.at < c.count) × (c.working ≤ 64) }
    ensures { result ≡ served_of c left works }
{
    if left == 0 {
        return stops_at(None, c.at + 1, c.count, left);
    }
    let working = with_work(c.working, works);
    if c.at + 1 < c.count {
        return next(c, Phase::Serving, left, working);
    }
    once_more(c.count, left, working)
}
