// Ticks (the step level) and rounds (the reaction level) are counted apart and never added.
ghost use Rattle.std.specs.Prelude.{◌≡◌, ◌+◌, ◌<◌};
ghost use Rattle.run.specs.Counts.{total_of};

#[derive(Clone, Copy)]
pub struct Ticks(pub usize);

// Whole times 2^32, and the rest: a total of rounds can pass 2^64 on paper.
#[derive(Clone, Copy)]
pub struct Rounds(pub u64, pub u64);

// The total with the rounds of one more tick.
pub fn with_rounds(total: Rounds, more: u32) -> Rounds
    requires { (total.0 < 1099511627776) × (total.1 < 4294967296) }
    ensures { (total_of result ≡ total_of total + more) × (result.1 < 4294967296) }
{
    let whole = total.0;
    let low = total.1 + (more as u64);
    if low < 4294967296 {
        return Rounds(whole, low);
    }
    Rounds(whole + 1, low - 4294967296)
}
