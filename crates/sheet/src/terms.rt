// Refusal 5: the terms.
ghost use Rattle.std.specs.Prelude.{◌≡◌, ◌&&◌, not, suc, ◌^◌, ◌≤◌, ◌<◌, T, eqb, ltb};
ghost use Rattle.sets.specs.Sets.{every};
ghost use Rattle.meaning.specs.Sheet.{term_count, term_kind};
ghost use Rattle.meaning.specs.Check.{head_ok, pairs_ok, term_ok, terms_ok};
ghost use Rattle.sheet.specs.Reading.{Record, Term};

use super::kinds::TermKind;
use super::words::{
    event_count, mode_count, term_count, term_kind, term_value, transition_count, wide,
};

// A mask of modes below n, not 0.
fn mask_ok(n: usize, v: u32) -> bool
    requires { n ≤ 32 }
    ensures { result ≡ (ltb 0 v && ltb v (2 ^ n)) }
{
    0 < v && (v as u64) >> n == 0
}

// An "or" of value v: neither first nor last nor before another.
fn or_ok(sheet: &[u32], t: usize, j: usize, v: u32) -> bool
    requires { Term sheet.now t j }
    ensures { result ≡ (eqb v 0 && ltb 0 j
        && ltb (suc j) (term_count sheet.now t)
        && not (eqb (term_kind sheet.now t (suc j)) 7)) }
{
    v == 0
        && 0 < j
        && j + 1 < term_count(sheet, t)
        && term_kind(sheet, t, j + 1) != TermKind::Or as u32
}

fn term_ok(sheet: &[u32], t: usize, j: usize) -> bool
    requires { Term sheet.now t j }
    ensures { result ≡ term_ok sheet.now t j }
{
    let v = term_value(sheet, t, j);
    let Ok(kind) = TermKind::try_from(term_kind(sheet, t, j)) else {
        return false;
    };
    match kind {
        TermKind::Delay => term_count(sheet, t) == 1 && v <= 65535,
        TermKind::Present | TermKind::Absent => v < event_count(sheet),
        TermKind::Active => mask_ok(mode_count(sheet), v),
        TermKind::Entered | TermKind::Exited => wide(v) < mode_count(sheet),
        TermKind::Taken => wide(v) < transition_count(sheet),
        TermKind::Or => or_ok(sheet, t, j, v),
    }
}

fn record_ok(sheet: &[u32], t: usize) -> bool
    requires { Record sheet.now t }
    ensures { result ≡ every (term_count sheet.now t) (term_ok sheet.now t) }
{
    (0..term_count(sheet, t)).all(|j| term_ok(sheet, t, j))
}

// Every term is sound.
pub fn terms_ok(sheet: &[u32]) -> bool
    requires { T (head_ok sheet.now) × T (pairs_ok sheet.now) }
    ensures { result ≡ terms_ok sheet.now }
{
    (0..transition_count(sheet)).all(|t| record_ok(sheet, t))
}
