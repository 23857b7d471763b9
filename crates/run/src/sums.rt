// The sum of a row of words.
ghost use Rattle.std.specs.Prelude.{◌≡◌, ◌≤◌, length, get_or};
ghost use Rattle.meaning.specs.Lists.{sum_to};

// The sum of at most 64 words.
pub fn sum_of(values: &[u32]) -> u64
    requires { length values.now ≤ 64 }
    ensures { result ≡ sum_to (length values.now) (λ i. get_or values.now i 0) }
{
    values.iter().map(|&x| u64::from(x)).sum()
}
