// Document 02, Ask 3: the mask of the modes strictly within each mode.
ghost use Rattle.std.specs.Prelude.{◌≡◌};
ghost use Rattle.meaning.specs.Within.{within_each, masks_of};
ghost use Rattle.sheet.specs.Within.{masks_in};
ghost use Rattle.sheet.specs.Reading.{Tree};

use super::words::{mode_count, parent};
use meaning::refusal::Refusal;
use sets::set::Set;

// Bit m of word p: p strictly contains m. From the highest mode down, each is added with what is within it to its parent, whose
// number is lower.
pub fn within_each(sheet: &[u32]) -> [u32; 32]
    requires { Tree sheet.now }
    ensures { result ≡ within_each sheet.now }
{
    let mut r = [0u32; 32];
    for m in (1..mode_count(sheet)).rev() {
        let p = parent(sheet, m);
        r[p] |= r[m] | u32::single(m);
    }
    r
}

// A sheet's masks, 0 for a number that is no mode.
pub fn masks_of(sheet: &[u32]) -> Result<[u32; 32], Refusal>
    ensures { masks_in result ≡ masks_of sheet.now }
{
    super::check(sheet)?;
    Ok(within_each(sheet))
}
