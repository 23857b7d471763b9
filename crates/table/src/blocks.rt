// A table's blocks: masks, timers, lengths and next blocks.
ghost use Rattle.std.specs.Prelude.{◌≡◌, not, ◌&&◌, cond, ◌+◌, ◌*◌, ◌<◌, ◌≤◌, T, eqb, length};
ghost use Rattle.sets.specs.Sets.{every};
ghost use Rattle.meaning.specs.Table.{b_in, word_in, block_ok};
ghost use Rattle.table.specs.Parts.{table_head_ok, table_pairs_ok, delayed_in, next_ok, block_head_ok, next_blocks_ok};

use super::words::{
    block_count, block_length, cell_count, event_count, offset, timer_delay, timers_at,
    transition_count,
};
use sets::set::Set;

// The transitions with a delay.
pub fn delayed(table: &[u32]) -> u64
    requires { T (table_head_ok table.now) }
    ensures { result ≡ delayed_in table.now }
{
    let mut r = 0u64;
    for t in 0..transition_count(table) {
        if timer_delay(table, t) != 0 {
            r |= u64::single(t);
        }
    }
    r
}

// The next block of each of the first cells is neither 0 nor at B or above.
fn cells_ok(cells: &[u32], count: usize, blocks: u32) -> bool
    requires { 6 * count ≤ length cells.now }
    ensures { result ≡ every count (next_ok cells.now blocks) }
{
    let mut ok = true;
    // Without leaving: a branch for each cell costs more.
    for c in 0..count {
        let next = cells[6 * c];
        ok = ok & (0 < next) & (next < blocks);
    }
    ok
}

// The mask of block b, which stands at an offset, is not 0; block 0 has mask 0 and no timers.
fn mask_ok(table: &[u32], b: usize, offset: usize, timers: u64) -> bool
    requires { offset < length table.now }
    ensures { result ≡ cond (eqb b 0)
        (eqb (word_in table.now offset) 0 && eqb timers 0)
        (not (eqb (word_in table.now offset) 0)) }
{
    if b == 0 {
        return table[offset] == 0 && timers == 0;
    }
    table[offset] != 0
}

// Block b is as it must be but for its next blocks; all blocks stand in their places.
fn block_head_ok(table: &[u32], with_delay: u64, b: usize) -> bool
    requires { T (table_head_ok table.now)
        × T (table_pairs_ok table.now)
        × (with_delay ≡ delayed_in table.now)
        × (b < b_in table.now) }
    ensures { result ≡ block_head_ok table.now b }
{
    let at = offset(table, b);
    let size = block_length(table, b);
    if size < 3 {
        return false;
    }
    let timers = timers_at(table, at);
    let a = timers.size();
    if !mask_ok(table, b, at, timers) || 6 < a || timers.minus(with_delay) != 0 {
        return false;
    }
    size == 3 + 6 * cell_count(a, event_count(table))
}

// The next blocks of block b, which is as it must be but for them.
pub fn next_blocks_ok(table: &[u32], b: usize) -> bool
    requires { T (table_head_ok table.now)
        × T (table_pairs_ok table.now)
        × (b < b_in table.now)
        × T (block_head_ok table.now b) }
    ensures { result ≡ next_blocks_ok table.now b }
{
    let at = offset(table, b);
    let size = block_length(table, b);
    cells_ok(&table[at + 3..at + size], (size - 3) / 6, table[3])
}

// Block b is as it must be; all blocks stand in their places.
fn block_ok(table: &[u32], with_delay: u64, b: usize) -> bool
    requires { T (table_head_ok table.now)
        × T (table_pairs_ok table.now)
        × (with_delay ≡ delayed_in table.now)
        × (b < b_in table.now) }
    ensures { result ≡ block_ok table.now b }
{
    block_head_ok(table, with_delay, b) && next_blocks_ok(table, b)
}

// Every block is as it must be but for next blocks; all blocks stand in their places.
pub fn block_heads_ok(table: &[u32]) -> bool
    requires { T (table_head_ok table.now) × T (table_pairs_ok table.now) }
    ensures { result ≡ every (b_in table.now) (block_head_ok table.now) }
{
    let with_delay = delayed(table);
    (0..block_count(table)).all(|b| block_head_ok(table, with_delay, b))
}

// Every block is as it must be; all blocks stand in their places.
pub fn blocks_ok(table: &[u32]) -> bool
    requires { T (table_head_ok table.now) × T (table_pairs_ok table.now) }
    ensures { result ≡ every (b_in table.now) (block_ok table.now) }
{
    let with_delay = delayed(table);
    (0..block_count(table)).all(|b| block_ok(table, with_delay, b))
}
