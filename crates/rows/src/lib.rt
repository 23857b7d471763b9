// Words stored in a row, at a place of a lent slice.
#![tactic(auto)]

ghost use Rattle.std.specs.Prelude.{◌≡◌, [], ◌∷◌, ◌+◌, ◌≤◌, length};
ghost use Rattle.rows.specs.Over.{over, zeros, three_of, five_of, six_of};

// A mode mask and a set of transitions, low and high: a block's header with its running timers, or the last words of a tick.
#[derive(Clone, Copy)]
pub struct Three {
    pub mask: u32,
    pub low: u32,
    pub high: u32,
}

// The words of a tick, in a cell's order from entered on.
#[derive(Clone, Copy)]
pub struct Five {
    pub entered: u32,
    pub exited: u32,
    pub active: u32,
    pub low: u32,
    pub high: u32,
}

// A cell: the next block, and the words of its tick.
#[derive(Clone, Copy)]
pub struct Six {
    pub next: u32,
    pub five: Five,
}

// A row of words, from a place on.
fn put_words<const N: usize>(out: &mut [u32], at: usize, words: [u32; N])
    requires { at + N ≤ length out.old }
    ensures { out.new ≡ over out.old at words.entry }
{
    // One by one: `copy_from_slice` adds instructions to the loop of a run.
    for (i, &word) in words.iter().enumerate() {
        out[at + i] = word;
    }
}

pub fn put_pair(out: &mut [u32], at: usize, first: u32, second: u32)
    requires { at + 2 ≤ length out.old }
    ensures { out.new ≡ over out.old at (first ∷ second ∷ []) }
{
    put_words(out, at, [first, second]);
}

pub fn put_three(out: &mut [u32], at: usize, w: Three)
    requires { at + 3 ≤ length out.old }
    ensures { out.new ≡ over out.old at (three_of w) }
{
    put_words(out, at, [w.mask, w.low, w.high]);
}

pub fn put_five(out: &mut [u32], at: usize, w: Five)
    requires { at + 5 ≤ length out.old }
    ensures { out.new ≡ over out.old at (five_of w) }
{
    put_words(out, at, [w.entered, w.exited, w.active, w.low, w.high]);
}

pub fn put_six(out: &mut [u32], at: usize, w: Six)
    requires { at + 6 ≤ length out.old }
    ensures { out.new ≡ over out.old at (six_of w) }
{
    let five = w.five;
    let words = [
        w.next,
        five.entered,
        five.exited,
        five.active,
        five.low,
        five.high,
    ];
    put_words(out, at, words);
}

pub fn put_zeros(out: &mut [u8], at: usize)
    requires { at + 64 ≤ length out.old }
    ensures { out.new ≡ over out.old at (zeros 64) }
{
    out[at..at + 64].fill(0);
}
