// Completion. The modes below a serial mode and those below a parallel one are found by two functions that call each other; the
// modes numbered above the present one fall. A mode without children, as most are, is not called for.
// They take the sheet and the children, not the tree: words behind two references cost a plan of 60 transitions 9 % of its time.
ghost use Rattle.std.specs.Prelude.{◌≡◌, ◌<◌};
ghost use Rattle.sets.specs.Sets.{single};
ghost use Rattle.meaning.specs.Sheet.{n_of, kind};
ghost use Rattle.meaning.specs.Check.{sheet_refusal};
ghost use Rattle.meaning.specs.Hierarchy.{complete};
ghost use Rattle.sheet.specs.Masks.{Children};
ghost use Rattle.hierarchy.specs.Below.{kept_child, completed_below, branch};

use super::tree::Tree;
use sets::set::Set;
use sheet::hierarchy::is_serial;
use sheet::words::first;

// The child that serial mode m takes: its child in the set x, or else its first mode.
fn kept_child(sheet: &[u32], children: &[u32; 32], x: u32, m: usize) -> usize
    requires { (sheet_refusal sheet.now ≡ 0) × (m < n_of sheet.now) × Children sheet.now children.now }
    ensures { result ≡ kept_child sheet.now x m }
{
    let c = x & children[m];
    if c == 0 {
        return first(sheet, m);
    }
    c.highest()
}

// The modes that completing serial mode m, for the set x, puts below it.
#[cycle(parallel_below_serial_below)]
fn serial_below(sheet: &[u32], children: &[u32; 32], x: u32, m: usize) -> u32
    requires { (sheet_refusal sheet.now ≡ 0)
        × (m < n_of sheet.now)
        × Children sheet.now children.now
        × (kind sheet.now m ≡ 1) }
    ensures { result ≡ completed_below sheet.now x m }
{
    let c = kept_child(sheet, children, x, m);
    let r = u32::single(c);
    if children[c] == 0 {
        return r;
    }
    if is_serial(sheet, c) {
        r | serial_below(sheet, children, x, c)
    } else {
        r | parallel_below(sheet, children, x, c)
    }
}

// The modes that completing mode m, parallel or atomic, puts below it for the set x.
#[cycle(parallel_below_serial_below)]
fn parallel_below(sheet: &[u32], children: &[u32; 32], x: u32, m: usize) -> u32
    requires { (sheet_refusal sheet.now ≡ 0)
        × (m < n_of sheet.now)
        × Children sheet.now children.now
        × (kind sheet.now m ≡ 1 → ⊥) }
    ensures { result ≡ completed_below sheet.now x m }
{
    let mut r = children[m];
    for c in r.members() {
        if children[c] != 0 {
            if is_serial(sheet, c) {
                r |= serial_below(sheet, children, x, c);
            } else {
                r |= parallel_below(sheet, children, x, c);
            }
        }
    }
    r
}

// Mode m with the modes that completing it, for the set x, puts below it.
pub fn completed(sheet: &[u32], children: &[u32; 32], x: u32, m: usize) -> u32
    requires { (sheet_refusal sheet.now ≡ 0) × (m < n_of sheet.now) × Children sheet.now children.now }
    ensures { result ≡ branch sheet.now x m }
{
    let r = u32::single(m);
    if children[m] == 0 {
        return r;
    }
    if is_serial(sheet, m) {
        r | serial_below(sheet, children, x, m)
    } else {
        r | parallel_below(sheet, children, x, m)
    }
}

impl Tree<'_> {
    // The same, of the tree.
    pub fn completed(&self, x: u32, m: usize) -> u32
        requires { m < n_of self.now.sheet.now }
        ensures { result ≡ branch self.now.sheet.now x m }
    {
        completed(self.sheet, self.children, x, m)
    }

    // Power-on's modes: the root, completed.
    pub fn start(&self) -> u32
        ensures { result ≡ complete self.now.sheet.now (single 0) }
    {
        self.completed(1, 0)
    }
}
