// The mode tree as masks, one word for each mode; containment and the meeting mode read from them.
ghost use Rattle.std.specs.Prelude.{◌≡◌, false, ◌<◌, T, eqb};
ghost use Rattle.meaning.specs.Sheet.{n_of, kind, source, target, contains, meeting};
ghost use Rattle.meaning.specs.Check.{head_ok};
ghost use Rattle.sheet.specs.Masks.{Children, Containers};
ghost use Rattle.sheet.specs.Reading.{Row, Record, Tree};

use super::kinds::ModeKind;
use super::words::{kind, mode_count, parent, source, target};
use sets::set::Set;

// The children of each mode: each mode is added to its parent's, if that can be a mode.
pub fn children(sheet: &[u32]) -> [u32; 32]
    requires { T (head_ok sheet.now) }
    ensures { Children sheet.now result }
{
    let mut r = [0u32; 32];
    for m in 1..mode_count(sheet) {
        let p = parent(sheet, m);
        if p < 32 {
            r[p] |= u32::single(m);
        }
    }
    r
}

// The modes that contain each mode: itself and those that contain its parent, whose number is lower.
pub fn containers(sheet: &[u32]) -> [u32; 32]
    requires { Tree sheet.now }
    ensures { Containers sheet.now result }
{
    let mut r = [1u32; 32];
    for m in 1..mode_count(sheet) {
        let p = parent(sheet, m);
        r[m] = r[p] | u32::single(m);
    }
    r
}

// Mode a is mode m or contains it.
pub fn contains(sheet: &[u32], containers: &[u32; 32], a: usize, m: usize) -> bool
    requires { Tree sheet.now × Containers sheet.now containers.now × (a < n_of sheet.now) × (m < n_of sheet.now) }
    ensures { result ≡ contains sheet.now a m }
{
    containers[m].has(a)
}

// A transition's own meeting mode: of the modes that contain both ends, the highest number is the innermost.
pub fn meeting(sheet: &[u32], containers: &[u32; 32], t: usize) -> usize
    requires { Tree sheet.now
        × Record sheet.now t
        × Containers sheet.now containers.now
        × (source sheet.now t < n_of sheet.now)
        × (target sheet.now t < n_of sheet.now)
        × (contains sheet.now (source sheet.now t) (target sheet.now t) ≡ false)
        × (contains sheet.now (target sheet.now t) (source sheet.now t) ≡ false) }
    ensures { (result ≡ meeting sheet.now t) × (result < n_of sheet.now) }
{
    (containers[source(sheet, t)] & containers[target(sheet, t)]).highest()
}

pub fn is_serial(sheet: &[u32], m: usize) -> bool
    requires { Row sheet.now m }
    ensures { result ≡ eqb (kind sheet.now m) 1 }
{
    kind(sheet, m) == ModeKind::Serial as u32
}
