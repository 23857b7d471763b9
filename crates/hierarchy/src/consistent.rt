// Whether a set of modes is consistent.
ghost use Rattle.std.specs.Prelude.{◌≡◌, ◌^◌, ◌<◌};
ghost use Rattle.sets.specs.Sets.{every_in};
ghost use Rattle.meaning.specs.Sheet.{n_of};
ghost use Rattle.meaning.specs.Check.{sheet_refusal};
ghost use Rattle.meaning.specs.Hierarchy.{member_ok, consistent};
ghost use Rattle.sheet.specs.Masks.{Children};

use sets::set::Set;
use sheet::hierarchy::children;
use sheet::kinds::ModeKind;
use sheet::words::{kind, mode_count, parent};

// A member m of the set x has its parent in it, just one child if serial, all children if parallel.
fn member_ok(sheet: &[u32], children: &[u32; 32], x: u32, m: usize) -> bool
    requires { (sheet_refusal sheet.now ≡ 0) × (m < n_of sheet.now) × Children sheet.now children.now }
    ensures { result ≡ member_ok sheet.now x m }
{
    if !x.has(parent(sheet, m)) {
        return false;
    }
    let all = children[m];
    match ModeKind::try_from(kind(sheet, m)) {
        Ok(ModeKind::Serial) => (x & all).one_member(),
        Ok(ModeKind::Parallel) => all.within(x),
        _ => true,
    }
}

// Every member of x is as it must be; x has modes below n only.
fn members_ok(sheet: &[u32], children: &[u32; 32], x: u32) -> bool
    requires { (sheet_refusal sheet.now ≡ 0) × (x < 2 ^ n_of sheet.now) × Children sheet.now children.now }
    ensures { result ≡ every_in (n_of sheet.now) x (member_ok sheet.now x) }
{
    x.members().all(|m| member_ok(sheet, children, x, m))
}

// The set x is consistent.
pub fn is_consistent(sheet: &[u32], x: u32) -> bool
    requires { sheet_refusal sheet.now ≡ 0 }
    ensures { result ≡ consistent sheet.now x }
{
    if !x.within(u32::below(mode_count(sheet))) || !x.has(0) {
        return false;
    }
    let children = children(sheet);
    members_ok(sheet, &children, x)
}
