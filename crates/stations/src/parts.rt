// The parts of stations: within their lists, and apart.
ghost use Rattle.std.specs.Prelude.{◌≡◌, ℕ, ◌+◌, ◌*◌, ◌≤◌, ◌<◌, ltb, length, get_or, drop};
ghost use Rattle.sets.specs.Sets.{every};
ghost use Rattle.meaning.specs.Stations.{shares};
ghost use Rattle.stations.specs.Serving.{part_words, PartsAt, apart_from, parts_within};

use super::Station;

// They end within an input list and an output list, with 5 words for each set.
pub fn parts_within(sets: usize, words: usize, s: Station) -> bool
    ensures { result ≡ parts_within sets words s }
{
    if (sets as u64) < (s.in_start as u64) + (s.in_length as u64) {
        return false;
    }
    if (words as u64) < (s.out_start as u64) + (s.out_length as u64) {
        return false;
    }
    5 * (s.in_length as u64) <= (s.out_length as u64)
}

// A place lies before the end of a part; by a difference, which is a word where the end may be none.
fn before_end(place: u64, start: u64, length: u64) -> bool
    ensures { result ≡ ltb place (start + length) }
{
    if place < start {
        return true;
    }
    place - start < length
}

// Two parts share a word.
fn share(start: u64, length: u64, start2: u64, length2: u64) -> bool
    ensures { result ≡ shares start length start2 length2 }
{
    if length == 0 {
        return false;
    }
    if length2 == 0 {
        return false;
    }
    if !before_end(start, start2, length2) {
        return false;
    }
    before_end(start2, start, length)
}

// The parts of a station share no word with those noted in place m.
fn apart_from(work: &[u64], m: usize, s: Station) -> bool
    requires { (m < 64) × (part_words ≤ length work.now) }
    ensures { result ≡ apart_from work.now s m }
{
    let p = 4 * m;
    if share(work[p], work[p + 1], s.in_start as u64, s.in_length as u64) {
        return false;
    }
    !share(
        work[p + 2],
        work[p + 3],
        s.out_start as u64,
        s.out_length as u64,
    )
}

// The parts of the stations before this one share no word with its own.
pub fn apart(work: &[u64], at: usize, s: Station) -> bool
    requires { (at ≤ 64) × (part_words ≤ length work.now) }
    ensures { result ≡ every at (apart_from work.now s) }
{
    (0..at).all(|m| apart_from(work, m, s))
}

// A station's parts are noted.
pub fn put_parts(work: &mut [u64], at: usize, s: Station)
    requires { (at < 64) × (part_words ≤ length work.old) }
    ensures { PartsAt work.new at s
        × ((i : ℕ) → i < 4 * at → get_or work.new i 0 ≡ get_or work.old i 0)
        × (drop part_words work.new ≡ drop part_words work.old) }
{
    let p = 4 * at;
    work[p] = s.in_start as u64;
    work[p + 1] = s.in_length as u64;
    work[p + 2] = s.out_start as u64;
    work[p + 3] = s.out_length as u64;
}
