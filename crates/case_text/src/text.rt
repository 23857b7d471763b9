// Numbers read from standard input.
//
// Safe on any text: a number saturates at 4294967295, a byte that is no digit stands between numbers, and the text ends where a
// read gives nothing. A count beyond what the arrays hold counts as what they hold, and the text goes on after as many numbers.
ghost use Rattle.std.specs.Prelude.{◌≤◌, length};

use run::state::{State, fresh};

// The bytes of the buffer from at to end are still to be read.
#[derive(Drop)]
pub struct Text {
    buffer: [u8; 65536],
    at: usize,
    end: usize,
    ghost within: { (at ≤ end) × (end ≤ 65536) },
}

// A run asked for: the state, how many input sets, how many output words.
#[derive(Clone, Copy)]
pub struct Asked {
    pub state: State,
    pub inputs: usize,
    pub outputs: usize,
}

impl Text {
    // Nothing is read yet.
    pub fn new() -> Self {
        Text {
            buffer: [0; 65536],
            at: 0,
            end: 0,
        }
    }

    // The next byte; the buffer is filled anew where it is used up.
    fn byte(&mut self) -> Option<u8> {
        if self.at == self.end {
            self.at = 0;
            self.end = io::read_full(0, &mut self.buffer);
        }
        if self.at == self.end {
            return None;
        }
        let byte = self.buffer[self.at];
        self.at += 1;
        Some(byte)
    }

    // The next number, 4294967295 where it is larger; 0 at the end of the text.
    pub fn number(&mut self) -> u32 {
        let mut number: Option<u32> = None;
        // Nothing says that the text ends; no run uses up these turns.
        for _ in 0..u64::MAX {
            let Some(byte) = self.byte() else {
                break;
            };
            if byte.is_ascii_digit() {
                let longer = number.unwrap_or(0).saturating_mul(10);
                number = Some(longer.saturating_add(u32::from(byte - b'0')));
            } else if number.is_some() {
                break;
            }
        }
        number.unwrap_or(0)
    }

    // The next number, or most where it is larger.
    pub fn count(&mut self, most: usize) -> usize
        ensures { result ≤ most }
    {
        most.min(self.number() as usize)
    }

    // Fills words with the numbers that come next.
    pub fn numbers(&mut self, words: &mut [u32]) {
        for word in words.iter_mut() {
            *word = self.number();
        }
    }

    // A length and as many words; how many they are.
    pub fn words(&mut self, words: &mut [u32]) -> usize
        ensures { result ≤ length words.old }
    {
        let count = self.count(words.len());
        self.numbers(&mut words[..count]);
        count
    }

    // A state: where it is, and pairs of transition and reading, or 64 + mode and age; every other one is 0. A pair that begins above
    // 95 is passed over.
    pub fn state(&mut self) -> State {
        let mut state = fresh();
        state.at = self.number();
        let pairs = self.count(96);
        for _ in 0..pairs {
            let place = self.number() as usize;
            let value = self.number();
            if place < 64 {
                state.readings[place] = value;
            } else if place < 96 {
                state.ages[place - 64] = value;
            }
        }
        state
    }

    // The state and the input sets of a run, and how many output words, at most as many as there are for them.
    pub fn run(&mut self, inputs: &mut [u32], most: usize) -> Asked
        ensures inputs { result.inputs ≤ length inputs.old }
        ensures outputs { result.outputs ≤ most }
    {
        let state = self.state();
        let inputs = self.words(inputs);
        let outputs = self.count(most);
        Asked {
            state,
            inputs,
            outputs,
        }
    }
}
