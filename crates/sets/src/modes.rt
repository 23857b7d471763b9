// Sets of modes, numbers below 32: bit m for mode m.
use super::set::{Members, Set};

impl Set for u32 {
    ghost width = { 32 };

    ghost word = { λ s. s };

    fn has(self, m: usize) -> bool {
        self >> m & 1 == 1
    }

    fn single(m: usize) -> u32 {
        1 << m
    }

    fn single_if(test: bool, m: usize) -> u32 {
        (test as u32) << m
    }

    fn below(n: usize) -> u32 {
        if n == 0 {
            return 0;
        }
        u32::MAX >> (32 - n)
    }

    fn is_empty(self) -> bool {
        self == 0
    }

    fn one_member(self) -> bool {
        self.count_ones() == 1
    }

    fn size(self) -> usize {
        self.count_ones() as usize
    }

    fn lowest(self) -> usize {
        self.trailing_zeros() as usize
    }

    fn highest(self) -> usize {
        (31 - self.leading_zeros()) as usize
    }

    fn without_lowest(self) -> u32 {
        self & (self - 1)
    }

    fn minus(self, other: u32) -> u32 {
        self & !other
    }

    fn within(self, other: u32) -> bool {
        self.minus(other) == 0
    }

    fn meets(self, other: u32) -> bool {
        self & other != 0
    }

    fn members(self) -> Members<u32> {
        Members { rest: self }
    }
}
