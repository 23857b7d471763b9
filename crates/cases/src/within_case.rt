// The case of the masks within each mode of the current sheet: the call that it makes and the line that it writes.
ghost use Rattle.std.specs.Prelude.{◌+◌, ◌*◌, ◌≤◌, length};

use case_text::line::{LentLine, Line};
use sheet::within::masks_of;

// Masks, one after another.
fn put_masks(line: &mut LentLine, masks: &[u32])
    requires { line.old + 21 * length masks.now ≤ 8192 }
    ensures { line.new ≤ line.old + 21 * length masks.now }
{
    for &mask in masks {
        line.put(mask);
    }
}

// How many modes a sheet has.
fn modes_of(sheet: &[u32]) -> usize
    ensures { result ≤ 32 }
{
    sheet.first().map_or(0, |n| 32.min(*n as usize))
}

// Case 13: the refusal of the current sheet; if there is none, a mask for each mode.
pub fn masks(sheet: &[u32]) {
    let mut bytes = [0; 8192];
    let given = masks_of(sheet);
    let mut line = Line::start_in(&mut bytes, b"within");
    line.put_refusal(given.err());
    if let Ok(masks) = given {
        put_masks(&mut line, &masks[..modes_of(sheet)]);
    }
    line.write();
}
