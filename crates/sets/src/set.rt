// A set of small numbers as a word: bit m for number m. The contracts cite specs/Sets.antt, where membership is defined.
ghost use Rattle.std.specs.Prelude.{◌≡◌, ℕ, ◌*◌, ◌^◌, ◌<◌, ◌≤◌, ◌↔◌, IsTrue, eqb};
ghost use Rattle.std.specs.Iterator.{at_most};
ghost use Rattle.sets.specs.Sets.{has, minus, meets, single, below, digit, size, lowest, highest, every_in, NextMember};

// A word whose bits are the members of a set of numbers below its width: a u32 for modes, a u64 for transitions.
pub trait Set: Copy {
    ghost width: { ℕ };

    ghost word: { Self → ℕ };

    // Number m is in the set.
    fn has(self, m: usize) -> bool
        requires { m < width }
        ensures { result ≡ has (word self) m };

    // The set of m alone.
    fn single(m: usize) -> Self
        requires { m < width }
        ensures { word result ≡ single m };

    // The set of m alone where a test holds, else the empty set.
    fn single_if(test: bool, m: usize) -> Self
        requires { m < width }
        ensures { word result ≡ digit test * 2 ^ m };

    // The set of all numbers below n.
    fn below(n: usize) -> Self
        requires { n ≤ width }
        ensures { word result ≡ below n };

    // No number is in the set.
    fn is_empty(self) -> bool
        ensures { result ≡ eqb (word self) 0 };

    // The set has exactly one member.
    fn one_member(self) -> bool
        ensures { result ≡ eqb (size width (word self)) 1 };

    // How many members the set has.
    fn size(self) -> usize
        ensures { result ≡ size width (word self) };

    // The lowest member, and the width for the empty set.
    fn lowest(self) -> usize
        ensures { result ≡ lowest width (word self) };

    // The highest member.
    fn highest(self) -> usize
        requires { 0 < word self }
        ensures { result ≡ highest width (word self) };

    // The set without its lowest member.
    fn without_lowest(self) -> Self
        requires { 0 < word self }
        ensures left { word result ≡ minus (word self) (single (lowest width (word self))) }
        ensures less { word result < word self };

    // The members that are not in another set.
    fn minus(self, other: Self) -> Self
        ensures { word result ≡ minus (word self) (word other) };

    // Every member is in another set.
    fn within(self, other: Self) -> bool
        ensures { result ≡ every_in width (word self) (has (word other)) };

    // Some number is in both.
    fn meets(self, other: Self) -> bool
        ensures { result ≡ meets (word self) (word other) };

    // The members, lowest first.
    fn members(self) -> Members<Self>
        ensures { result.rest ≡ self };
}

// The members of a set, lowest first: those that are left.
#[derive(Clone, Copy)]
pub struct Members<S> {
    pub rest: S,
}

impl<S: Set> Iterator for Members<S> {
    type Item = usize;

    ghost next_gives = { λ s r t. NextMember S.width (S.word s.rest) r (S.word t.rest) };

    ghost remaining = { λ s. at_most (S.word s.rest) };

    fn next(&mut self) -> Option<usize> {
        if self.rest.is_empty() {
            return None;
        }
        let m = self.rest.lowest();
        self.rest = self.rest.without_lowest();
        Some(m)
    }
}
