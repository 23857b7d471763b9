// A transition's delay, and the test of its terms.
ghost use Rattle.std.specs.Prelude.{◌≡◌, true, false, ◌&&◌, [], ◌∷◌, ℕ, ◌-◌, ◌^◌, ◌<◌, ltb};
ghost use Rattle.sets.specs.Sets.{has, those};
ghost use Rattle.meaning.specs.Sheet.{t_of, source};
ghost use Rattle.meaning.specs.Check.{sheet_refusal};
ghost use Rattle.meaning.specs.Reaction.{is_delay, delay, is_timer};
ghost use Rattle.reaction.specs.Plan.{events_only};
ghost use Rattle.reaction.specs.Facts.{holds_by, alternative_by};

use sets::set::Set;
use sheet::kinds::TermKind;
use sheet::words::{offset, source, term_count, term_kind, term_value, wide};

// Transition t has a delay.
pub fn is_delay(sheet: &[u32], t: usize) -> bool
    requires { (sheet_refusal sheet.now ≡ 0) × (t < t_of sheet.now) }
    ensures { result ≡ is_delay sheet.now t }
{
    term_kind(sheet, t, 0) == TermKind::Delay as u32
}

// The delay of a transition that has one.
pub fn delay(sheet: &[u32], t: usize) -> u32
    requires { (sheet_refusal sheet.now ≡ 0) × (t < t_of sheet.now) }
    ensures { result ≡ delay sheet.now t }
{
    term_value(sheet, t, 0)
}

// Transition t is a timer: it has a delay of 1 or more.
pub fn is_timer(sheet: &[u32], t: usize) -> bool
    requires { (sheet_refusal sheet.now ≡ 0) × (t < t_of sheet.now) }
    ensures { result ≡ is_timer sheet.now t }
{
    is_delay(sheet, t) && 0 < delay(sheet, t)
}

// What a term of each kind is judged on: the tick's input, what is not in it, and the four sets as the round began, each at
// the number of the kind.
pub fn facts(input: u32, entered: u32, exited: u32, active: u32, taken: u64) -> [u64; 8]
    ensures { result ≡ 0 ∷ input ∷ (2 ^ 32 - 1 - input) ∷ active ∷ entered ∷ exited ∷ taken ∷ 0 ∷ [] }
{
    [
        0,
        u64::from(input),
        u64::from(!input),
        u64::from(active),
        u64::from(entered),
        u64::from(exited),
        taken,
        0,
    ]
}

// A term of a kind other than "or" holds. A value other than a mask is below 64.
fn holds(f: &[u64; 8], kind: usize, v: u32) -> bool
    requires { (kind < 7) × ((kind ≡ 3 → ⊥) → v < 64) }
    ensures { result ≡ holds_by f.now kind v }
{
    if kind == TermKind::Active as usize {
        return u64::from(v) & f[kind] != 0;
    }
    (f[kind] >> v) & 1 == 1
}

// The lowest alternative of transition t that holds, counted from 1; 0 if none. Not for a delay transition.
pub fn alternative(sheet: &[u32], t: usize, f: &[u64; 8]) -> u32
    requires { (sheet_refusal sheet.now ≡ 0) × (t < t_of sheet.now) × (is_delay sheet.now t ≡ false) }
    ensures { result ≡ alternative_by sheet.now f.now t }
{
    let at = offset(sheet, t) + 2;
    let mut a = 1;
    let mut ok = true;
    for j in 0..term_count(sheet, t) {
        let kind = wide(sheet[at + 2 * j]);
        if kind == TermKind::Or as usize {
            if ok {
                return a;
            }
            a += 1;
            ok = true;
        } else {
            ok &= holds(f, kind, sheet[at + 2 * j + 1]);
        }
    }
    if ok { a } else { 0 }
}

// The terms of transition t speak of events only.
pub fn events_only(sheet: &[u32], t: usize) -> bool
    requires { (sheet_refusal sheet.now ≡ 0) × (t < t_of sheet.now) }
    ensures { result ≡ events_only sheet.now t }
{
    (0..term_count(sheet, t)).all(|j| {
        matches!(
            TermKind::try_from(term_kind(sheet, t, j)),
            Ok(TermKind::Present | TermKind::Absent | TermKind::Or)
        )
    })
}

// Transition t is triggered by its terms: its source is in a mode set, and they hold. Not for a delay transition.
fn is_judged(sheet: &[u32], modes: u32, t: usize, f: &[u64; 8]) -> bool
    requires { (sheet_refusal sheet.now ≡ 0) × (t < t_of sheet.now) × (is_delay sheet.now t ≡ false) }
    ensures { result ≡ (has modes (source sheet.now t)
        && ltb 0 (alternative_by sheet.now f.now t)) }
{
    modes.has(source(sheet, t)) && alternative(sheet, t, f) != 0
}

// Those of a set of transitions, none with a delay, that are triggered by their terms.
pub fn judged(sheet: &[u32], modes: u32, set: u64, f: &[u64; 8]) -> u64
    requires { (sheet_refusal sheet.now ≡ 0)
        × ((t : ℕ) → has set t ≡ true → (t < t_of sheet.now) × (is_delay sheet.now t ≡ false)) }
    ensures { result ≡ those 64 set (λ t. has modes (source sheet.now t)
        && ltb 0 (alternative_by sheet.now f.now t)) }
{
    let mut r = 0u64;
    for t in set.members() {
        if is_judged(sheet, modes, t, f) {
            r |= u64::single(t);
        }
    }
    r
}
