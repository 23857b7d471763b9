// The case of stations: what it reads after its number, the call that it makes and the line that it writes.
#![tactic(auto)]

ghost use Rattle.std.specs.Prelude.{◌≡◌, ◌+◌, ◌*◌, ◌≤◌, length, take};
ghost use Rattle.meaning.specs.Stations.{serve_stations};
ghost use Rattle.stations.specs.Stations.{stations_of, call_of};

use case_text::digests::{digest, with_word};
use case_text::line::{LentLine, Line};
use case_text::text::Text;
use run::state::{State, fresh};
use stations::{Served, Station, serve};
use std::iter::once;

// A fresh station with empty parts.
fn empty() -> Station {
    Station {
        state: fresh(),
        position: 0,
        mark: 0,
        in_start: 0,
        in_length: 0,
        out_start: 0,
        out_length: 0,
    }
}

// A station: its state, its position, its mark, and start and length of its parts.
fn read_station(text: &mut Text) -> Station {
    Station {
        state: text.state(),
        position: text.number(),
        mark: text.number(),
        in_start: text.number(),
        in_length: text.number(),
        out_start: text.number(),
        out_length: text.number(),
    }
}

// Fills the list with the stations that come next.
fn read_stations(text: &mut Text, list: &mut [Station]) {
    for station in list.iter_mut() {
        *station = read_station(text);
    }
}

// The digest of a state: block, readings and ages.
fn digest_state(state: &State) -> u32 {
    once(state.at)
        .chain(state.readings.iter().copied())
        .chain(state.ages.iter().copied())
        .fold(0, with_word)
}

// A station: its position, its mark and the digest of its state.
fn put_station(line: &mut LentLine, station: &Station)
    requires { line.old + 63 ≤ 8192 }
    ensures { line.new ≤ line.old + 63 }
{
    line.put(station.position);
    line.put(station.mark);
    line.put(digest_state(&station.state));
}

// The stations of a list.
fn put_stations(line: &mut LentLine, list: &[Station])
    requires { line.old + 63 * length list.now ≤ 8192 }
    ensures { line.new ≤ line.old + 63 * length list.now }
{
    for station in list {
        put_station(line, station);
    }
}

// Serves the first stations of an array.
fn serve_listed(
    list: &mut [Station; 65],
    count: usize,
    table: &[u32],
    inputs: &[u32],
    out: &mut [u32],
    allowance: u64,
) -> Served
    requires { count ≤ 65 }
    ensures { call_of result (take count list.new) out.new
        ≡ serve_stations table.now (stations_of (take count list.old)) inputs.now out.old allowance }
{
    serve(&mut list[..count], table, inputs, out, allowance)
}

// Case 16: stations on the current table. The line has the refusal and the allowance spent, the digest of the output words and the
// stations.
pub fn serve_stations(text: &mut Text, table: &[u32]) {
    let mut inputs = [0; 400];
    let mut out = [u32::MAX; 2000];
    let mut list = [empty(); 65];
    let mut bytes = [0; 8192];
    let allowance = text.number();
    let sets = text.words(&mut inputs);
    let words = text.count(out.len());
    let count = text.count(list.len());
    read_stations(text, &mut list[..count]);
    let inputs = &inputs[..sets];
    let out = &mut out[..words];
    let served = serve_listed(&mut list, count, table, inputs, out, u64::from(allowance));
    let mut line = Line::start_in(&mut bytes, b"stations");
    line.put_refusal(served.refusal);
    line.put(served.spent);
    line.put(digest(out));
    put_stations(&mut line, &list[..count]);
    line.write();
}
