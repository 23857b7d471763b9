// Why a transition stayed put in a tick.
ghost use Rattle.std.specs.Prelude.{◌≡◌, suc, ◌^◌, ◌<◌};
ghost use Rattle.sets.specs.Sets.{has, those, lowest};
ghost use Rattle.meaning.specs.Sheet.{k_of, t_of};
ghost use Rattle.meaning.specs.GivesWay.{gives_way};
ghost use Rattle.reaction.specs.Plan.{Planned};
ghost use Rattle.reaction.specs.Rounds.{tick_of, start_sets, rounds_by, Begun};
ghost use Rattle.reaction.specs.Reasons.{report_of, rounds_report, reason_by};

use super::alternatives::cause;
use super::plan::{Plan, hits};
use super::terms::facts;
use super::tick::{Sets, Start, Ticked, after_round, round_of, triggered};
use sets::set::Set;
use sets::transitions;
use sheet::words::source;

// What is reported of a transition in a tick that is not refused: its source was never active; it was never triggered; it gave way to a transition; it was
// taken in a round, counted from 1, by an alternative.
#[derive(Clone, Copy)]
pub enum Why {
    NeverActive,
    NeverTriggered,
    GaveWay(u32),
    Taken(u32, u8),
}

// Those of a set of transitions that transition t gives way to.
fn ahead_of(sheet: &[u32], plan: &Plan, ts: u64, t: usize) -> u64
    requires { Planned sheet.now plan.now × (ts < 2 ^ t_of sheet.now) × (t < t_of sheet.now) }
    ensures { result ≡ those (t_of sheet.now) ts (gives_way sheet.now t) }
{
    let mut r = 0u64;
    for u in ts.members() {
        if plan.yielders[u].has(t) {
            r |= u64::single(u);
        }
    }
    r
}

// What the rounds of a tick that begins with b report of transition t, up to the one that does.
fn rounds_report(
    sheet: &[u32],
    plan: &Plan,
    b: Start,
    first: u64,
    input: u32,
    o: Ticked,
    t: usize,
) -> Why
    requires { Planned sheet.now plan.now × Begun sheet.now b.begun b.entered first input × (input < 2 ^ k_of sheet.now)
        × (tick_of b.begun o ≡ rounds_by sheet.now (suc (t_of sheet.now)) input (start_sets b) first 0)
        × (t < t_of sheet.now) }
    ensures { report_of result
        ≡ rounds_report sheet.now (has o.taken t) (suc (t_of sheet.now)) input (start_sets b) first 0 t }
{
    let hits = hits(sheet, plan, input);
    let mixed = plan.mixed;
    let mut z = Sets {
        modes: b.begun,
        entered: b.entered,
        exited: 0,
        taken: 0,
    };
    let mut ts = first;
    for r in 0..o.rounds {
        let round = round_of(sheet, plan, ts);
        let es = round.chosen;
        let m = round.moves;
        if es.has(t) {
            let f = facts(input, z.entered, z.exited, b.begun | z.entered, z.taken);
            return Why::Taken(r + 1, cause(sheet, t, &f));
        }
        if !o.taken.has(t) && ts.has(t) {
            return Why::GaveWay(ahead_of(sheet, plan, ts, t).lowest() as u32);
        }
        z = after_round(z, m.ends, es);
        ts = triggered(sheet, m.next & hits, m.next & mixed, z, b.begun, input);
    }
    Why::NeverTriggered
}

// What a tick that is not refused and begins with b reports of transition t. Its rounds are gone through once more.
pub fn reason(
    sheet: &[u32],
    plan: &Plan,
    b: Start,
    first: u64,
    input: u32,
    o: Ticked,
    t: usize,
) -> Why
    requires { Planned sheet.now plan.now × Begun sheet.now b.begun b.entered first input × (input < 2 ^ k_of sheet.now)
        × (tick_of b.begun o ≡ rounds_by sheet.now (suc (t_of sheet.now)) input (start_sets b) first 0)
        × (t < t_of sheet.now) }
    ensures { report_of result ≡ reason_by sheet.now (tick_of b.begun o) input (start_sets b) first t }
{
    let active = b.begun | transitions::low(o.changed);
    if !active.has(source(sheet, t)) {
        return Why::NeverActive;
    }
    rounds_report(sheet, plan, b, first, input, o, t)
}
