// The alternatives by which the transitions of a tick were taken.
ghost use Rattle.std.specs.Prelude.{◌≡◌, true, cond, ℕ, suc, ◌+◌, ◌^◌, ◌≤◌, ◌<◌, T, ltb, length, get_or};
ghost use Rattle.sets.specs.Sets.{has};
ghost use Rattle.rows.specs.Over.{over};
ghost use Rattle.meaning.specs.Lists.{row_from};
ghost use Rattle.meaning.specs.Sheet.{k_of, t_of};
ghost use Rattle.meaning.specs.Check.{sheet_refusal};
ghost use Rattle.reaction.specs.Plan.{Planned};
ghost use Rattle.reaction.specs.Rounds.{sets_of, tick_of, start_sets, rounds_by, Begun};
ghost use Rattle.reaction.specs.Causes.{cause_by, cause, fired_by};

use super::plan::{Plan, hits};
use super::terms::{alternative, facts, is_delay};
use super::tick::{Sets, Start, Ticked, after_round, round_of, triggered};
use rows::put_zeros;
use sets::set::Set;
use sheet::words::term_count;

// Why transition t, which is triggered, is: 9 for a delay, else the lowest alternative that holds. The terms are judged only where
// there is more than one.
pub fn cause(sheet: &[u32], t: usize, f: &[u64; 8]) -> u8
    requires { (sheet_refusal sheet.now ≡ 0) × (t < t_of sheet.now) × T (ltb 0 (cause_by sheet.now f.now t)) }
    ensures { result ≡ cause_by sheet.now f.now t }
{
    if is_delay(sheet, t) {
        return 9;
    }
    if term_count(sheet, t) == 1 {
        return 1;
    }
    alternative(sheet, t, f) as u8
}

// The numbers of the transitions es, which a round takes that begins with the sets z; the other numbers of the tick stay.
fn put_causes(
    sheet: &[u32],
    es: u64,
    z: Sets,
    begun: u32,
    input: u32,
    numbers: &mut [u8],
    at: usize,
)
    requires { (sheet_refusal sheet.now ≡ 0)
        × ((t : ℕ) → has es t ≡ true → (t < t_of sheet.now) × T (ltb 0 (cause sheet.now input (sets_of begun z) t)))
        × (at + 64 ≤ length numbers.old) }
    ensures { numbers.new
        ≡ over numbers.old at (row_from 0 64 (λ t.
        cond (has es t) (cause sheet.now input (sets_of begun z) t) (get_or numbers.old (at + t) 0))) }
{
    let f = facts(input, z.entered, z.exited, begun | z.entered, z.taken);
    for t in es.members() {
        numbers[at + t] = cause(sheet, t, &f);
    }
}

// The 64 numbers of a tick that begins with b. Its rounds but the last are gone through once more; the last took what was not taken
// before.
pub fn put_numbers(
    sheet: &[u32],
    plan: &Plan,
    b: Start,
    first: u64,
    input: u32,
    o: Ticked,
    numbers: &mut [u8],
    at: usize,
)
    requires { Planned sheet.now plan.now × Begun sheet.now b.begun b.entered first input × (input < 2 ^ k_of sheet.now)
        × (tick_of b.begun o ≡ rounds_by sheet.now (suc (t_of sheet.now)) input (start_sets b) first 0)
        × (at + 64 ≤ length numbers.old) }
    ensures { numbers.new
        ≡ over numbers.old at (row_from 0 64
        (fired_by sheet.now (suc (t_of sheet.now)) input (start_sets b) first)) }
{
    let hits = hits(sheet, plan, input);
    let mixed = plan.mixed;
    let mut z = Sets {
        modes: b.begun,
        entered: b.entered,
        exited: 0,
        taken: 0,
    };
    let mut ts = first;
    put_zeros(numbers, at);
    for _ in 1..o.rounds {
        let round = round_of(sheet, plan, ts);
        let es = round.chosen;
        let m = round.moves;
        put_causes(sheet, es, z, b.begun, input, numbers, at);
        z = after_round(z, m.ends, es);
        ts = triggered(sheet, m.next & hits, m.next & mixed, z, b.begun, input);
    }
    let last = o.taken.minus(z.taken);
    put_causes(sheet, last, z, b.begun, input, numbers, at);
}
