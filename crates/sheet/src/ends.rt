// Refusals 4 and 6: transition ends, shared ends.
ghost use Rattle.std.specs.Prelude.{◌≡◌, T};
ghost use Rattle.meaning.specs.Check.{head_ok, pairs_ok, end_ok, ends_ok, distinct_ok};
ghost use Rattle.sheet.specs.Masks.{Containers};
ghost use Rattle.sheet.specs.Reading.{Tree, Record};

use super::hierarchy::{containers, contains, is_serial, meeting};
use super::words::{mode_count, source, target, transition_count};
use sets::set::Set;

fn end_ok(sheet: &[u32], containers: &[u32; 32], t: usize) -> bool
    requires { Tree sheet.now × Record sheet.now t × Containers sheet.now containers.now }
    ensures { result ≡ end_ok sheet.now t }
{
    let n = mode_count(sheet);
    let a = source(sheet, t);
    let b = target(sheet, t);
    if n <= a || n <= b {
        return false;
    }
    if contains(sheet, containers, a, b) || contains(sheet, containers, b, a) {
        return false;
    }
    is_serial(sheet, meeting(sheet, containers, t))
}

// The ends of every transition are sound.
pub fn ends_ok(sheet: &[u32]) -> bool
    requires { Tree sheet.now × T (pairs_ok sheet.now) }
    ensures { result ≡ ends_ok sheet.now }
{
    let containers = containers(sheet);
    (0..transition_count(sheet)).all(|t| end_ok(sheet, &containers, t))
}

// No two transitions share both ends: the targets met so far are kept for each source.
pub fn distinct_ok(sheet: &[u32]) -> bool
    requires { T (head_ok sheet.now) × T (pairs_ok sheet.now) × T (ends_ok sheet.now) }
    ensures { result ≡ distinct_ok sheet.now }
{
    let mut targets = [0u32; 32];
    for t in 0..transition_count(sheet) {
        let a = source(sheet, t);
        let b = target(sheet, t);
        if targets[a].has(b) {
            return false;
        }
        targets[a] |= u32::single(b);
    }
    true
}
