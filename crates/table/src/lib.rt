// The table's layout: its words read, and refusal 15 before a run.
#![tactic(auto)]

ghost use Rattle.std.specs.Prelude.{◌≡◌, ◌&&◌, ◌||◌, T, eqb, ltb, ◌/◌, ◌%◌};
ghost use Rattle.sets.specs.Sets.{every};
ghost use Rattle.meaning.specs.Table.{t_in, timer_ok, table_ok};
ghost use Rattle.table.specs.Parts.{table_head_ok, table_pairs_ok, preamble_ok, shape_ok, nexts_ok};

mod blocks;
pub mod words;

use words::{block_count, block_length, offset, transition_count};

// Word 0, k, T and B are in range, and the timer words and the pairs are there.
fn head_ok(table: &[u32]) -> bool
    ensures { result ≡ table_head_ok table.now }
{
    if table.len() < 4 || table[0] != 1 {
        return false;
    }
    if 6 < table[1] || 64 < table[2] || table[3] < 1 || 4096 < table[3] {
        return false;
    }
    4 + (table[2] as usize) + 2 * (table[3] as usize) <= table.len()
}

// A timer word is 0, or a source below 32 with a delay.
fn timer_ok(word: u32) -> bool
    ensures { result ≡ (eqb word 0 || ltb (word / 65536) 32 && ltb 0 (word % 65536)) }
{
    word == 0 || word / 65536 < 32 && 0 < word % 65536
}

fn timers_ok(table: &[u32]) -> bool
    requires { T (table_head_ok table.now) }
    ensures { result ≡ every (t_in table.now) (timer_ok table.now) }
{
    (0..transition_count(table)).all(|t| timer_ok(table[4 + t]))
}

// Each block begins where the one before ends, and the last ends the table.
fn pairs_ok(table: &[u32]) -> bool
    requires { T (table_head_ok table.now) }
    ensures { result ≡ table_pairs_ok table.now }
{
    let count = block_count(table);
    let mut end = 4 + transition_count(table) + 2 * count;
    for b in 0..count {
        if offset(table, b) != end {
            return false;
        }
        end += block_length(table, b);
    }
    end == table.len()
}

// What stands before the blocks: the head, the timer words and the pairs.
fn preamble_ok(table: &[u32]) -> bool
    ensures { result ≡ preamble_ok table.now }
{
    if !head_ok(table) {
        return false;
    }
    timers_ok(table) && pairs_ok(table)
}

// The table's layout is sound but for next blocks. Any list of words is answered.
pub fn shape_ok(table: &[u32]) -> bool
    ensures { result ≡ shape_ok table.now }
{
    preamble_ok(table) && blocks::block_heads_ok(table)
}

// The next blocks of a table whose layout is sound but for them.
pub fn nexts_ok(table: &[u32]) -> bool
    requires { T (shape_ok table.now) }
    ensures { result ≡ nexts_ok table.now }
{
    (0..block_count(table)).all(|b| blocks::next_blocks_ok(table, b))
}

// The table's layout is sound; 15 if not. Any list of words is answered.
pub fn table_ok(table: &[u32]) -> bool
    ensures { result ≡ table_ok table.now }
{
    preamble_ok(table) && blocks::blocks_ok(table)
}
