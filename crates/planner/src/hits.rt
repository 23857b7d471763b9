// The transitions that an input set triggers by itself, worked out for all input sets at once: bit i of a word for input set i.
ghost use Rattle.std.specs.Prelude.{◌≡◌, ◌⊎◌, true, ◌*◌, ◌^◌, ◌≤◌, ◌<◌, ltb, get_or, replicate};
ghost use Rattle.sets.specs.Sets.{has, union, digit, set_of};
ghost use Rattle.meaning.specs.Sheet.{k_of, t_of};
ghost use Rattle.meaning.specs.Check.{sheet_refusal};
ghost use Rattle.meaning.specs.Reaction.{alternative};
ghost use Rattle.reaction.specs.Plan.{no_sets, events_only, hits_of};
ghost use Rattle.reaction.specs.Facts.{facts_of, holds_by};
ghost use Rattle.planner.specs.Parts.{Words, is_sure, sure, is_hit};

use reaction::terms::is_delay;
use sets::set::Set;
use sheet::kinds::TermKind;
use sheet::words::{event_count, offset, term_count, wide};

// The input sets that have event e.
fn with_event(e: usize) -> u64
    requires { e < 6 }
    ensures { result ≡ set_of 64 (λ i. has i e) }
{
    let words = [
        0xaaaa_aaaa_aaaa_aaaau64,
        0xcccc_cccc_cccc_cccc,
        0xf0f0_f0f0_f0f0_f0f0,
        0xff00_ff00_ff00_ff00,
        0xffff_0000_ffff_0000,
        0xffff_ffff_0000_0000,
    ];
    words[e]
}

// The input sets on which a term holds: event e is present or absent.
fn on_term(kind: u32, e: usize) -> u64
    requires { ((kind ≡ 1) ⊎ (kind ≡ 2)) × (e < 6) }
    ensures { result ≡ set_of 64 (λ i. holds_by (facts_of i no_sets) kind e) }
{
    let words = with_event(e);
    if kind == TermKind::Present as u32 {
        return words;
    }
    !words
}

// The input sets on which some alternative of transition t holds. Its terms speak of events only.
fn inputs_on(sheet: &[u32], t: usize) -> u64
    requires { (sheet_refusal sheet.now ≡ 0) × (t < t_of sheet.now) × (events_only sheet.now t ≡ true) }
    ensures { result ≡ set_of 64 (λ i. ltb 0 (alternative sheet.now i no_sets t)) }
{
    let at = offset(sheet, t) + 2;
    // Those on which an earlier alternative holds, and those on which the terms so far of this one do.
    let mut found = 0u64;
    let mut held = 0xffff_ffff_ffff_ffffu64;
    for j in 0..term_count(sheet, t) {
        let kind = sheet[at + 2 * j];
        if kind == TermKind::Or as u32 {
            found |= held;
            held = 0xffff_ffff_ffff_ffff;
        } else {
            held &= on_term(kind, wide(sheet[at + 2 * j + 1]));
        }
    }
    found | held
}

// The input sets that trigger the sure transition t where its source is active: all of them for a delay of 0.
fn inputs_of(sheet: &[u32], t: usize) -> u64
    requires { (sheet_refusal sheet.now ≡ 0) × (t < t_of sheet.now) × (is_sure sheet.now t ≡ true) }
    ensures { result ≡ set_of 64 (is_hit sheet.now t) }
{
    if is_delay(sheet, t) {
        return 0xffff_ffff_ffff_ffff;
    }
    inputs_on(sheet, t)
}

// Transition t is put into the words of the input sets of a set.
fn put_hit(hits: &mut [u64; 64], count: usize, set: u64, t: usize)
    requires { (count ≤ 64) × (t < 64) }
    ensures { Words hits.new count (λ i. union (get_or hits.old i 0) (digit (has set i) * 2 ^ t)) }
{
    for i in 0..count {
        hits[i] |= u64::single_if(set.has(i), t);
    }
}

// Each sure transition is put into the words of the input sets that trigger it.
pub fn put_hits(sheet: &[u32], certain: u64, hits: &mut [u64; 64])
    requires { (sheet_refusal sheet.now ≡ 0) × (certain ≡ sure sheet.now) × (hits.old ≡ replicate 64 0) }
    ensures { Words hits.new (2 ^ k_of sheet.now) (hits_of sheet.now) }
{
    let count = wide(1u32 << event_count(sheet));
    for t in certain.members() {
        put_hit(hits, count, inputs_of(sheet, t), t);
    }
}
