// The masks of a table's blocks and their running timers, against its sheet.
ghost use Rattle.std.specs.Prelude.{◌≡◌, ◌+◌, ◌≤◌, ◌<◌, T, length};
ghost use Rattle.sets.specs.Sets.{every};
ghost use Rattle.meaning.specs.Table.{b_in};
ghost use Rattle.cells.specs.Index.{PowerOfTwo};
ghost use Rattle.reaction.specs.Plan.{Planned};
ghost use Rattle.rows.specs.Over.{over};
ghost use Rattle.table.specs.Parts.{shape_ok};
ghost use Rattle.meaning.specs.Faithful.{head_faithful};
ghost use Rattle.acceptance.specs.Heads.{masks_in, Noted};

use cells::listed::{note, place};
use hierarchy::consistent::is_consistent;
use reaction::plan::{Plan, running};
use table::words::{block_count, offset, timers_at};

// The masks of the blocks, by number, at the front of a list.
pub fn put_masks(table: &[u32], masks: &mut [u32])
    requires { T (shape_ok table.now) × (b_in table.now ≤ length masks.old) }
    ensures { masks.new ≡ over masks.old 0 (masks_in table.now) }
{
    for b in 0..block_count(table) {
        masks[b] = table[offset(table, b)];
    }
}

// Block b, not block 0: its mask is consistent and not that of a block before it, its timers are those that run in it. Its mask is noted.
fn head_true(
    sheet: &[u32],
    plan: &Plan,
    table: &[u32],
    masks: &[u32],
    hints: &mut [u16],
    b: usize,
) -> bool
    requires { Noted sheet.now table.now plan.now masks.now hints.old b × (b < b_in table.now) }
    ensures { (result ≡ head_faithful sheet.now table.now b)
        × (T result
        → Noted sheet.now table.now plan.now masks.now hints.new (b + 1)) }
{
    let mask = masks[b];
    if !is_consistent(sheet, mask) || place(&masks[1..b], hints, mask) < b - 1 {
        return false;
    }
    if timers_at(table, offset(table, b)) != running(sheet, plan, mask) {
        return false;
    }
    note(hints, mask, b as u16);
    true
}

// All blocks have true heads.
pub fn heads_true(
    sheet: &[u32],
    plan: &Plan,
    table: &[u32],
    masks: &[u32],
    hints: &mut [u16],
) -> bool
    requires { Planned sheet.now plan.now
        × T (shape_ok table.now)
        × (masks.now ≡ masks_in table.now)
        × PowerOfTwo (length hints.old) }
    ensures { result ≡ every (b_in table.now) (head_faithful sheet.now table.now) }
{
    for b in 1..masks.len() {
        if !head_true(sheet, plan, table, masks, hints, b) {
            return false;
        }
    }
    true
}
