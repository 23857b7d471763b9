// Sets of transitions, numbers below 64: bit t for transition t.
ghost use Rattle.std.specs.Prelude.{◌≡◌, ℕ, ◌+◌, ◌*◌, ◌/◌, ◌%◌, ◌^◌, ◌≤◌, length, get_or};
ghost use Rattle.sets.specs.Sets.{has, some_in};

use super::set::{Members, Set};

impl Set for u64 {
    ghost width = { 64 };

    ghost word = { λ s. s };

    fn has(self, m: usize) -> bool {
        self >> m & 1 == 1
    }

    fn single(m: usize) -> u64 {
        1 << m
    }

    fn single_if(test: bool, m: usize) -> u64 {
        (test as u64) << m
    }

    fn below(n: usize) -> u64 {
        if n == 0 {
            return 0;
        }
        u64::MAX >> (64 - n)
    }

    fn is_empty(self) -> bool {
        self == 0
    }

    fn one_member(self) -> bool {
        self.count_ones() == 1
    }

    fn size(self) -> usize {
        self.count_ones() as usize
    }

    fn lowest(self) -> usize {
        self.trailing_zeros() as usize
    }

    fn highest(self) -> usize {
        (63 - self.leading_zeros()) as usize
    }

    fn without_lowest(self) -> u64 {
        self & (self - 1)
    }

    fn minus(self, other: u64) -> u64 {
        self & !other
    }

    fn within(self, other: u64) -> bool {
        self.minus(other) == 0
    }

    fn meets(self, other: u64) -> bool {
        self & other != 0
    }

    fn members(self) -> Members<u64> {
        Members { rest: self }
    }
}

// The part below 32, the part from 32 on moved down by 32, and the set of two such parts.
pub fn low(set: u64) -> u32
    ensures { result ≡ set % 2 ^ 32 }
{
    (set & 0xffff_ffff) as u32
}

pub fn high(set: u64) -> u32
    ensures { result ≡ set / 2 ^ 32 }
{
    (set >> 32) as u32
}

pub fn join(low: u32, high: u32) -> u64
    ensures { result ≡ high * 2 ^ 32 + low }
{
    u64::from(high) << 32 | u64::from(low)
}

// The union of the words at the members of a mode set.
pub fn union_of(words: &[u64], set: u32) -> u64
    requires { 32 ≤ length words.now }
    ensures { (i : ℕ) → has result i ≡ some_in 32 set (λ m. has (get_or words.now m 0) i) }
{
    let mut r = 0u64;
    for m in set.members() {
        r |= words[m];
    }
    r
}
