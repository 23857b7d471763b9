// Refusal 2: the mode rows.
ghost use Rattle.std.specs.Prelude.{◌≡◌, ◌&&◌, not, cond, T, eqb, ltb};
ghost use Rattle.sets.specs.Sets.{some};
ghost use Rattle.meaning.specs.Sheet.{n_of, kind, parent, first, is_child};
ghost use Rattle.meaning.specs.Check.{head_ok, mode_ok, modes_ok};
ghost use Rattle.sheet.specs.Masks.{Children};
ghost use Rattle.sheet.specs.Reading.{Row};

use super::hierarchy::{children, is_serial};
use super::kinds::ModeKind;
use super::words::{first, is_child, kind, mode_count, parent};

// Some mode is a child of mode m.
fn has_child(sheet: &[u32], children: &[u32; 32], m: usize) -> bool
    requires { Row sheet.now m × Children sheet.now children.now }
    ensures { result ≡ some (n_of sheet.now) (is_child sheet.now m) }
{
    children[m] != 0
}

// The parent of mode m: of the root 0, of another mode a lower one that is not atomic.
fn parent_ok(sheet: &[u32], m: usize) -> bool
    requires { Row sheet.now m }
    ensures { result ≡ cond (eqb m 0)
        (eqb (parent sheet.now m) 0)
        (ltb (parent sheet.now m) m
        && not (eqb (kind sheet.now (parent sheet.now m)) 0)) }
{
    let p = parent(sheet, m);
    if m == 0 {
        return p == 0;
    }
    p < m && kind(sheet, p) != ModeKind::Atomic as u32
}

// The first mode of mode m: of a serial mode one of its children, else 0.
fn first_ok(sheet: &[u32], m: usize) -> bool
    requires { Row sheet.now m }
    ensures { result ≡ cond (eqb (kind sheet.now m) 1)
        (ltb (first sheet.now m) (n_of sheet.now)
        && is_child sheet.now m (first sheet.now m))
        (eqb (first sheet.now m) 0) }
{
    let c = first(sheet, m);
    if is_serial(sheet, m) {
        return c < mode_count(sheet) && is_child(sheet, m, c);
    }
    c == 0
}

fn mode_ok(sheet: &[u32], children: &[u32; 32], m: usize) -> bool
    requires { Row sheet.now m × Children sheet.now children.now }
    ensures { result ≡ mode_ok sheet.now m }
{
    let Ok(kind) = ModeKind::try_from(kind(sheet, m)) else {
        return false;
    };
    if !parent_ok(sheet, m) || !first_ok(sheet, m) {
        return false;
    }
    match kind {
        ModeKind::Atomic => true,
        ModeKind::Serial | ModeKind::Parallel => has_child(sheet, children, m),
    }
}

// Every mode row is sound.
pub fn modes_ok(sheet: &[u32]) -> bool
    requires { T (head_ok sheet.now) }
    ensures { result ≡ modes_ok sheet.now }
{
    let children = children(sheet);
    (0..mode_count(sheet)).all(|m| mode_ok(sheet, &children, m))
}
