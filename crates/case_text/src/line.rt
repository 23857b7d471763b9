// Lines written to standard output.
ghost use Rattle.std.specs.Prelude.{◌≡◌, ◌+◌, ◌≤◌, ◌<◌, ℕ, List, length};

use meaning::refusal::{Refusal, number};
use run::state::State;
use std::marker::Model;

// Where the bytes of a line are: in the line itself, or where its caller lends them. A line that is written lets them go.
pub trait Bytes: Drop {
    ghost held: { Self → List ℕ };

    // The bytes, as they stand.
    fn bytes(&mut self) -> &mut [u8; 8192]
        ensures { result.now ≡ held self.old };
}

impl Bytes for [u8; 8192] {
    ghost held = { λ bytes. bytes };

    fn bytes(&mut self) -> &mut [u8; 8192] {
        &mut *self
    }
}

impl Bytes for &mut [u8; 8192] {
    ghost held = { λ lent. lent.now };

    fn bytes(&mut self) -> &mut [u8; 8192] {
        &mut **self
    }
}

// A line of a word and numbers; one that is begun has to be written. It holds 8,192 bytes, and every caller is proved to stay below
// that. `Line` with no type argument has its bytes in itself.
pub struct Line<B = [u8; 8192]> {
    bytes: B,
    end: usize,
}

// A line in bytes that its caller lends.
pub type LentLine<'a> = Line<&'a mut [u8; 8192]>;

// Clauses see how many bytes it has.
impl<B> Model for Line<B> {
    ghost use Rattle.std.specs.Prelude.{ℕ, ◌≤◌};

    ghost Value = { ℕ };

    ghost view = { λ l. l.end };

    ghost invariant = { λ l. l.end ≤ 8192 };
}

impl Line {
    // A line starts with a word. Where handing it on must not copy its bytes, they are lent (`start_in`).
    pub fn start(word: &[u8]) -> Self
        requires { length word.now ≤ 64 }
        ensures { result ≤ 64 }
    {
        let mut bytes = [0; 8192];
        let Line { bytes: _, end } = Line::start_in(&mut bytes, word);
        Line { bytes, end }
    }
}

impl<'a> LentLine<'a> {
    // The same in lent bytes. Their caller makes them before all else: below a loop they would be cleared twice.
    pub fn start_in(bytes: &'a mut [u8; 8192], word: &[u8]) -> LentLine<'a>
        requires { length word.now ≤ 64 }
        ensures { result ≤ 64 }
    {
        bytes[..word.len()].copy_from_slice(word);
        Line {
            bytes,
            end: word.len(),
        }
    }
}

impl<B: Bytes> Line<B> {
    // A blank and a number.
    pub fn put<N: Into<u64>>(&mut self, n: N)
        requires { self.old + 21 ≤ 8192 }
        ensures { self.new ≤ self.old + 21 }
    {
        let mut digits = [0; 20];
        let count = io::decimal(n.into(), &mut digits);
        let bytes = self.bytes.bytes();
        bytes[self.end] = b' ';
        self.end += 1;
        bytes[self.end..self.end + count].copy_from_slice(&digits[..count]);
        self.end += count;
    }

    // The number of a refusal that there may be.
    pub fn put_refusal(&mut self, why: Option<Refusal>)
        requires { self.old + 21 ≤ 8192 }
        ensures { self.new ≤ self.old + 21 }
    {
        self.put(number(why));
    }

    // A number and its value, where the value is not 0.
    fn put_pair(&mut self, n: usize, value: u32)
        requires { self.old + 42 ≤ 8192 }
        ensures { self.new ≤ self.old + 42 }
    {
        if value != 0 {
            self.put(n as u64);
            self.put(value);
        }
    }

    // A state: where it is, then transition and reading for each reading that is not 0, then 64 + mode and age for each age that
    // is not 0.
    pub fn put_state(&mut self, state: &State)
        requires { self.old ≤ 1024 }
        ensures { self.new ≤ self.old + 4053 }
    {
        self.put(state.at);
        for (t, &reading) in state.readings.iter().enumerate() {
            self.put_pair(t, reading);
        }
        for (m, &age) in state.ages.iter().enumerate() {
            self.put_pair(64 + m, age);
        }
    }

    // Ends the line and writes it.
    pub fn write(self)
        requires { self < 8192 }
    {
        let Line { mut bytes, end } = self;
        let bytes = bytes.bytes();
        bytes[end] = b'\n';
        io::write_all(1, &bytes[..end + 1]);
    }
}

#[cfg(test)]
mod tests {
    use super::*;
    use run::state::fresh;

    // The line has bytes of its own: it is made in one function and filled in another.
    fn begun() -> Line
        ensures { result ≤ 85 }
    {
        let mut line = Line::start(b"line");
        line.put(7u32);
        line
    }

    #[test]
    fn line_in_its_own_bytes() -> Result<(), usize> {
        let mut line = begun();
        let mut state = fresh();
        state.at = 3;
        state.readings[2] = 5;
        state.ages[1] = 9;
        line.put_refusal(Some(Refusal::Restless));
        line.put_state(&state);
        let Line { bytes, end } = line;
        if &bytes[..end] == b"line 7 9 3 2 5 65 9".as_slice() {
            Ok(())
        } else {
            Err(end)
        }
    }

    #[test]
    fn line_written_from_its_own_bytes() {
        begun().write();
    }
}
