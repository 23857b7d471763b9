// Where a table's words stand.
ghost use Rattle.std.specs.Prelude.{◌≡◌, ◌+◌, ◌*◌, ◌^◌, ◌<◌, ◌≤◌, T, length};
ghost use Rattle.meaning.specs.Table.{word_in, k_in, t_in, b_in, source_in, delay_in, offset_in, length_in};
ghost use Rattle.table.specs.Parts.{table_head_ok};

use sets::transitions;

// k, T and B.
pub fn event_count(table: &[u32]) -> u32
    requires { T (table_head_ok table.now) }
    ensures { result ≡ k_in table.now }
{
    table[1]
}

pub fn transition_count(table: &[u32]) -> usize
    requires { T (table_head_ok table.now) }
    ensures { result ≡ t_in table.now }
{
    table[2] as usize
}

pub fn block_count(table: &[u32]) -> usize
    requires { T (table_head_ok table.now) }
    ensures { result ≡ b_in table.now }
{
    table[3] as usize
}

// A timer's source and delay.
pub fn timer_source(table: &[u32], t: usize) -> usize
    requires { T (table_head_ok table.now) × (t < t_in table.now) }
    ensures { result ≡ source_in table.now t }
{
    (table[4 + t] / 65536) as usize
}

pub fn timer_delay(table: &[u32], t: usize) -> u64
    requires { T (table_head_ok table.now) × (t < t_in table.now) }
    ensures { result ≡ delay_in table.now t }
{
    (table[4 + t] % 65536) as u64
}

// The offset and the length of block b.
pub fn offset(table: &[u32], b: usize) -> usize
    requires { T (table_head_ok table.now) × (b < b_in table.now) }
    ensures { result ≡ offset_in table.now b }
{
    table[4 + transition_count(table) + 2 * b] as usize
}

pub fn block_length(table: &[u32], b: usize) -> usize
    requires { T (table_head_ok table.now) × (b < b_in table.now) }
    ensures { result ≡ length_in table.now b }
{
    table[5 + transition_count(table) + 2 * b] as usize
}

// The running timers of the block at an offset.
pub fn timers_at(table: &[u32], offset: usize) -> u64
    requires { offset + 2 < length table.now }
    ensures { result ≡ word_in table.now (offset + 2) * 2 ^ 32 + word_in table.now (offset + 1) }
{
    transitions::join(table[offset + 1], table[offset + 2])
}

// How many cells a block with a timers has, for k events.
pub fn cell_count(a: usize, k: u32) -> usize
    requires { (a ≤ 6) × (k ≤ 6) }
    ensures { result ≡ 2 ^ (a + k) }
{
    (1usize << a) << k
}
