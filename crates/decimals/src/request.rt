// The numbers that the bench program is given: sheet length, sheet, tick count, input sets.
ghost use Rattle.std.specs.Prelude.{◌≡◌};
ghost use Rattle.decimals.specs.Request.{asked};

// The most sheet words and ticks that are accepted, and the numbers of the longest list.
const MOST_WORDS: usize = 2403;

pub const MOST_TICKS: usize = 1024;

pub const MOST_NUMBERS: usize = 2 + MOST_WORDS + MOST_TICKS;

// How many sheet words and ticks are asked for.
#[derive(Clone, Copy)]
pub struct Request {
    pub words: usize,
    pub ticks: usize,
}

// What the numbers ask for; none where they are no such list, or ask for more sheet words or ticks than are accepted.
pub fn asked(numbers: &[u32]) -> Option<Request>
    ensures { result ≡ asked numbers.now }
{
    let words = *numbers.first()? as usize;
    if words > MOST_WORDS {
        return None;
    }
    let ticks = *numbers.get(1 + words)? as usize;
    if ticks > MOST_TICKS || numbers.len() != 2 + words + ticks {
        return None;
    }
    Some(Request { words, ticks })
}
