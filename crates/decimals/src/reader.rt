// Decimals below 2^32 with spaces and line feeds between and around them, read byte by byte into lent words, so that a text of
// any length is read in parts.
ghost use Rattle.std.specs.Prelude.{◌≡◌, List, ℕ, ◌≤◌};
ghost use Rattle.decimals.specs.Reading.{reading_of};
ghost use Rattle.decimals.specs.Reading.{begun, refused, with_digit, with_gap, with_byte};

// How far a text is read: whether it is one of decimals so far, the number that pending digits make, and how many numbers stand in
// the lent words. A text that is none is read on all the same, so `good` stands beside the rest.
#[derive(Clone, Copy)]
pub struct Reader {
    pub good: bool,
    pub pending: Option<u32>,
    pub count: usize,
}

impl Reader {
    pub fn new() -> Reader
        ensures { (words : List ℕ) → reading_of result words ≡ begun words }
    {
        Reader {
            good: true,
            pending: None,
            count: 0,
        }
    }

    fn refuse(&mut self)
        ensures { (words : List ℕ) → reading_of self.new words ≡ refused (reading_of self.old words) }
    {
        self.good = false;
    }

    fn read_digit(&mut self, byte: u8)
        requires { (48 ≤ byte) × (byte ≤ 57) }
        ensures { (words : List ℕ) → reading_of self.new words ≡ with_digit (reading_of self.old words) byte }
    {
        let longer = u64::from(self.pending.unwrap_or(0)) * 10 + u64::from(byte - b'0');
        match u32::try_from(longer) {
            Ok(value) => self.pending = Some(value),
            Err(_) => self.refuse(),
        }
    }

    // Reads a space, a line feed or the end of the text: digits that are pending are a number.
    pub fn read_gap(&mut self, words: &mut [u32])
        ensures { reading_of self.new words.new ≡ with_gap (reading_of self.old words.old) }
    {
        let Some(value) = self.pending else {
            return;
        };
        if self.count < words.len() {
            words[self.count] = value;
            self.count += 1;
            self.pending = None;
        } else {
            self.refuse();
        }
    }

    // Reads a byte of the text.
    pub fn read_byte(&mut self, byte: u8, words: &mut [u32])
        ensures { reading_of self.new words.new ≡ with_byte (reading_of self.old words.old) byte }
    {
        if byte.is_ascii_digit() {
            self.read_digit(byte);
        } else if byte == b'\n' || byte == b' ' {
            self.read_gap(words);
        } else {
            self.refuse();
        }
    }
}
