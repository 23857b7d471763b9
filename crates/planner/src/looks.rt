// What the terms of a transition are about: events, modes entered or active, modes exited, transitions taken.
ghost use Rattle.std.specs.Prelude.{◌≡◌, ◌⊎◌, ℕ, ◌<◌};
ghost use Rattle.sets.specs.Sets.{has};
ghost use Rattle.meaning.specs.Sheet.{t_of, term_count};
ghost use Rattle.meaning.specs.Check.{sheet_refusal};
ghost use Rattle.planner.specs.Looks.{on_event, on_entry, on_exit, on_taken, LooksTo};

use sets::set::Set;
use sheet::kinds::TermKind;
use sheet::words::{offset, term_count, wide};

// What a term of a kind and value is about: an event present or absent. These four test and do not jump by the kind, for speed.
fn events_by(kind: u32, v: u32) -> u64
    requires { (kind ≡ 1) ⊎ (kind ≡ 2) → v < 64 }
    ensures { (e : ℕ) → has result e ≡ on_event kind v e }
{
    if kind == TermKind::Present as u32 || kind == TermKind::Absent as u32 {
        return u64::single(wide(v));
    }
    0
}

// Modes that are active, or one that is entered.
fn entry_by(kind: u32, v: u32) -> u32
    requires { kind ≡ 4 → v < 32 }
    ensures { (m : ℕ) → has result m ≡ on_entry kind v m }
{
    if kind == TermKind::Active as u32 {
        return v;
    }
    if kind == TermKind::Entered as u32 {
        return u32::single(wide(v));
    }
    0
}

// A mode that is exited.
fn exit_by(kind: u32, v: u32) -> u32
    requires { kind ≡ 5 → v < 32 }
    ensures { (m : ℕ) → has result m ≡ on_exit kind v m }
{
    if kind == TermKind::Exited as u32 {
        return u32::single(wide(v));
    }
    0
}

// A transition that is taken.
fn taken_by(kind: u32, v: u32) -> u64
    requires { kind ≡ 6 → v < 64 }
    ensures { (t : ℕ) → has result t ≡ on_taken kind v t }
{
    if kind == TermKind::Taken as u32 {
        return u64::single(wide(v));
    }
    0
}

// What the terms of a transition are about.
#[derive(Clone, Copy)]
pub struct Looks {
    pub events: u64,
    pub entry: u32,
    pub exit: u32,
    pub taken: u64,
}

pub fn looks_of(sheet: &[u32], t: usize) -> Looks
    requires { (sheet_refusal sheet.now ≡ 0) × (t < t_of sheet.now) }
    ensures { LooksTo sheet.now t (term_count sheet.now t) result.events result.entry result.exit result.taken }
{
    let at = offset(sheet, t) + 2;
    let mut events = 0u64;
    let mut entry = 0u32;
    let mut exit = 0u32;
    let mut taken = 0u64;
    for j in 0..term_count(sheet, t) {
        let kind = sheet[at + 2 * j];
        let v = sheet[at + 2 * j + 1];
        events |= events_by(kind, v);
        entry |= entry_by(kind, v);
        exit |= exit_by(kind, v);
        taken |= taken_by(kind, v);
    }
    Looks {
        events,
        entry,
        exit,
        taken,
    }
}
