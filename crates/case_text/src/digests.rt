// Digests of the words that a case answers.
ghost use Rattle.std.specs.Prelude.{◌<◌};

// A digest with one more word. That of no words is 0.
pub fn with_word(digest: u32, word: u32) -> u32
    ensures { result < 4294967291 }
{
    ((u64::from(digest) * 65599 + u64::from(word) + 1) % 4294967291) as u32
}

// The digest of a list of words.
pub fn digest(words: &[u32]) -> u32 {
    words.iter().copied().fold(0, with_word)
}
