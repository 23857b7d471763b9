// The transitions that a round can trigger next, by what their terms are about, and the events that transitions name.
ghost use Rattle.std.specs.Prelude.{◌≡◌, true, ℕ, ◌<◌, length, replicate};
ghost use Rattle.sets.specs.Sets.{has};
ghost use Rattle.meaning.specs.Sheet.{t_of};
ghost use Rattle.meaning.specs.Check.{sheet_refusal};
ghost use Rattle.reaction.specs.Plan.{next_of, named_all};
ghost use Rattle.planner.specs.Parts.{Words, ends_of, from_of};
ghost use Rattle.planner.specs.Looks.{AddedTo, LookedTo, EntryWords, ExitWords, taken_of, named_of};

use super::looks::looks_of;
use hierarchy::unions::union_within;
use reaction::terms::is_delay;
use sets::set::Set;
use sets::transitions;
use sheet::words::{source, transition_count};

// Transition t is added to the words of the members of a set.
fn add_to(words: &mut [u64], set: u64, t: usize)
    requires { (t < 64) × ((k : ℕ) → has set k ≡ true → k < length words.old) }
    ensures { AddedTo words.old words.new set t }
{
    for k in set.members() {
        words[k] |= u64::single(t);
    }
}

// The events that transitions with each source name; the transitions with a term about each mode's entry and exit and about each
// transition taken are added to the words of these. The events that any transition names. A delay's term is about none of these.
fn put_looks(
    sheet: &[u32],
    named: &mut [u64; 32],
    entry: &mut [u64; 32],
    exit: &mut [u64; 32],
    next: &mut [u64; 64],
) -> u64
    requires { (sheet_refusal sheet.now ≡ 0) × (named.old ≡ replicate 32 0) }
    ensures { LookedTo sheet.now (t_of sheet.now)
        named.new
        entry.old entry.new
        exit.old exit.new
        next.old next.new result }
{
    let mut all = 0u64;
    for t in 0..transition_count(sheet) {
        if !is_delay(sheet, t) {
            let l = looks_of(sheet, t);
            let m = source(sheet, t);
            named[m] |= l.events;
            all |= l.events;
            add_to(entry, u64::from(l.entry), t);
            add_to(exit, u64::from(l.exit), t);
            add_to(next, l.taken, t);
        }
    }
    all
}

// What is about taken transitions is joined with the words of the modes that t enters, and with those of what it exits, a mode and the
// modes within it. That mode is the lowest of them.
fn join_next(
    sheet: &[u32],
    ends: &[u64; 64],
    entry: &[u64; 32],
    exit: &[u64; 32],
    next: &mut [u64; 64],
)
    requires { (sheet_refusal sheet.now ≡ 0)
        × Words ends.now (t_of sheet.now) (ends_of sheet.now)
        × EntryWords sheet.now entry.now
        × ExitWords sheet.now exit.now
        × Words next.old (t_of sheet.now) (taken_of sheet.now) }
    ensures { Words next.new (t_of sheet.now) (next_of sheet.now) }
{
    for t in 0..transition_count(sheet) {
        let into = transitions::high(ends[t]);
        let top = transitions::low(ends[t]).lowest();
        next[t] |= transitions::union_of(entry, into) | exit[top];
    }
}

// The transitions that each can trigger next, the events that transitions with each source name, and those that any transition names.
pub fn put_next(
    sheet: &[u32],
    from: &[u64; 32],
    ends: &[u64; 64],
    next: &mut [u64; 64],
    named: &mut [u64; 32],
) -> u64
    requires { (sheet_refusal sheet.now ≡ 0)
        × Words from.now 32 (from_of sheet.now)
        × Words ends.now (t_of sheet.now) (ends_of sheet.now)
        × (next.old ≡ replicate 64 0)
        × (named.old ≡ replicate 32 0) }
    ensures { (result ≡ named_all sheet.now)
        × Words next.new (t_of sheet.now) (next_of sheet.now)
        × Words named.new 32 (named_of sheet.now) }
{
    let mut entry = *from;
    let mut exit = [0u64; 32];
    let events = put_looks(sheet, named, &mut entry, &mut exit, next);
    union_within(sheet, &mut exit);
    join_next(sheet, ends, &entry, &exit, next);
    events
}
