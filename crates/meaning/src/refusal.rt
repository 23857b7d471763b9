// Why a call is refused, and the number that the documents give it.
ghost use Rattle.std.specs.Prelude.{◌≡◌};
ghost use Rattle.meaning.specs.Refusal.{number_of, number_or_0};

#[derive(Clone, Copy, Debug, PartialEq, Eq)]
pub enum Refusal {
    Head = 1,
    ModeRow = 2,
    Pair = 3,
    Ends = 4,
    Term = 5,
    SharedEnds = 6,
    TooManyTimers = 7,
    Ambiguous = 8,
    Restless = 9,
    ShortTable = 10,
    FullWorkList = 11,
    ShortOutput = 12,
    InputSet = 13,
    State = 14,
    Layout = 15,
    Transition = 16,
    Unfaithful = 17,
    Stations = 18,
    Parts = 19,
    TickRange = 20,
    IdleArrow = 21,
}

impl From<Refusal> for u32 {
    ghost from_gives = { λ why n. n ≡ number_of why };

    fn from(why: Refusal) -> u32 {
        why as u32
    }
}

// The number of a refusal that there may be, 0 for none.
pub fn number(refusal: Option<Refusal>) -> u32
    ensures { result ≡ number_or_0 refusal }
{
    refusal.map_or(0, u32::from)
}
