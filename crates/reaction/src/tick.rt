// A tick and its rounds.
ghost use Rattle.std.specs.Prelude.{◌≡◌, true, false, ◌&&◌, ℕ, suc, ◌^◌, ◌<◌, ltb};
ghost use Rattle.sets.specs.Sets.{those, set_of, some_in, has, union};
ghost use Rattle.rows.specs.Over.{five_of};
ghost use Rattle.meaning.specs.Sheet.{k_of, t_of, source};
ghost use Rattle.meaning.specs.Check.{sheet_refusal};
ghost use Rattle.meaning.specs.Reaction.{is_delay, alternative, triggered, eligible};
ghost use Rattle.meaning.specs.Tick.{five_words};
ghost use Rattle.reaction.specs.Plan.{Planned, yielders_of};
ghost use Rattle.reaction.specs.Rounds.{sets_of, tick_of, ended_so, first_sets, start_sets, after_ends, add_move, MovesOf, RoundOf, rounds_by, StartOf, Before, Begun};

use super::plan::{Plan, from_set, hits};
use super::terms::{facts, judged};
use meaning::refusal::Refusal;
use rows::Five;
use sets::set::Set;
use sets::transitions;
use sheet::words::{transition_count, wide};

// What is carried from round to round: the current modes, those entered and exited in the tick, the transitions taken.
#[derive(Clone, Copy)]
pub struct Sets {
    pub modes: u32,
    pub entered: u32,
    pub exited: u32,
    pub taken: u64,
}

// What a tick gives: the modes after it (as a refused round began), those entered and, from bit 32 on, those exited, the transitions
// taken, and its rounds.
#[derive(Clone, Copy)]
pub struct Ticked {
    pub refusal: Option<Refusal>,
    pub rounds: u32,
    pub modes: u32,
    pub changed: u64,
    pub taken: u64,
}

// What transitions do if they are taken together: the modes exited if active and, from bit 32 on, entered; the transitions in
// conflict with one of them; those that can be triggered next.
#[derive(Clone, Copy)]
pub struct Moves {
    pub ends: u64,
    pub clashes: u64,
    pub next: u64,
}

// The transitions that a round takes, and what they do.
#[derive(Clone, Copy)]
pub struct Round {
    pub chosen: u64,
    pub moves: Moves,
}

// What a tick begins with: the modes (at power-on the root, completed) and those of them entered; the transitions whose source is
// one of them; those of these whose terms are to be judged.
#[derive(Clone, Copy)]
pub struct Start {
    pub begun: u32,
    pub entered: u32,
    pub live: u64,
    pub unsure: u64,
}

// The sure transitions, and those of the unsure ones whose source is a current mode and whose terms hold.
pub fn triggered(sheet: &[u32], sure: u64, unsure: u64, z: Sets, begun: u32, input: u32) -> u64
    requires { (sheet_refusal sheet.now ≡ 0)
        × ((t : ℕ) → has unsure t ≡ true → (t < t_of sheet.now) × (is_delay sheet.now t ≡ false)) }
    ensures { result ≡ union sure (those 64 unsure (λ t. has z.modes (source sheet.now t)
        && ltb 0 (alternative sheet.now input (sets_of begun z) t))) }
{
    if unsure == 0 {
        return sure;
    }
    let f = facts(input, z.entered, z.exited, begun | z.entered, z.taken);
    sure | judged(sheet, z.modes, unsure, &f)
}

// The transitions that give way to one of a set.
fn yielding(sheet: &[u32], plan: &Plan, ts: u64) -> u64
    requires { Planned sheet.now plan.now × (ts < 2 ^ t_of sheet.now) }
    ensures { result ≡ set_of (t_of sheet.now)
        (λ u. some_in (t_of sheet.now) ts (λ t. has (yielders_of sheet.now t) u)) }
{
    let mut r = 0u64;
    for t in ts.members() {
        r |= plan.yielders[t];
    }
    r
}

// The triggered transitions that give way to none.
fn eligible(sheet: &[u32], plan: &Plan, ts: u64) -> u64
    requires { Planned sheet.now plan.now × (ts < 2 ^ t_of sheet.now) }
    ensures { result ≡ eligible sheet.now ts }
{
    ts.minus(yielding(sheet, plan, ts))
}

// The moves of some transitions, and of transition t besides.
fn with_move(plan: &Plan, m: Moves, t: usize) -> Moves
    requires { t < 64 }
    ensures { result ≡ add_move plan.now m t }
{
    Moves {
        ends: m.ends | plan.ends[t],
        clashes: m.clashes | plan.conflicts[t],
        next: m.next | plan.next[t],
    }
}

// What the transitions es do.
fn moves_of(sheet: &[u32], plan: &Plan, es: u64) -> Moves
    requires { Planned sheet.now plan.now × (es < 2 ^ t_of sheet.now) }
    ensures { MovesOf sheet.now es result }
{
    let mut r = Moves {
        ends: 0,
        clashes: 0,
        next: 0,
    };
    for t in es.members() {
        r = with_move(plan, r, t);
    }
    r
}

// The round of the triggered transitions ts: who gives way is worked out only where two of them are in conflict.
pub fn round_of(sheet: &[u32], plan: &Plan, ts: u64) -> Round
    requires { Planned sheet.now plan.now × (ts < 2 ^ t_of sheet.now) }
    ensures { RoundOf sheet.now ts result }
{
    let all = moves_of(sheet, plan, ts);
    if !all.clashes.meets(ts) {
        return Round {
            chosen: ts,
            moves: all,
        };
    }
    let es = eligible(sheet, plan, ts);
    let moves = moves_of(sheet, plan, es);
    Round { chosen: es, moves }
}

// What is carried on after a round that takes es.
pub fn after_round(z: Sets, ends: u64, es: u64) -> Sets
    ensures { result ≡ after_ends z ends es }
{
    let exits = transitions::low(ends);
    let enters = transitions::high(ends);
    Sets {
        modes: z.modes.minus(exits) | enters,
        entered: z.entered | enters,
        exited: z.exited | (z.modes & exits),
        taken: z.taken | es,
    }
}

// What a tick gives whose rounds ended so.
fn ended(refusal: Option<Refusal>, z: Sets, rounds: u32) -> Ticked
    ensures { result ≡ ended_so refusal z rounds }
{
    Ticked {
        refusal,
        rounds,
        modes: z.modes,
        changed: transitions::join(z.entered, z.exited),
        taken: z.taken,
    }
}

// All rounds of a tick from its first triggered transitions on: each takes a transition not taken before, so T and one look are
// enough. A round exits the sources of all that were triggered, so of each triggered next the source was entered or a term is about
// what the round did.
pub fn rounds(
    sheet: &[u32],
    plan: &Plan,
    begun: u32,
    entered: u32,
    first: u64,
    input: u32,
) -> Ticked
    requires { Planned sheet.now plan.now × Begun sheet.now begun entered first input × (input < 2 ^ k_of sheet.now) }
    ensures { tick_of begun result
        ≡ rounds_by sheet.now (suc (t_of sheet.now)) input (sets_of begun (first_sets begun entered)) first 0 }
{
    let most = transition_count(sheet);
    let hits = hits(sheet, plan, input);
    let mixed = plan.mixed;
    let mut z = Sets {
        modes: begun,
        entered,
        exited: 0,
        taken: 0,
    };
    let mut ts = first;
    let mut r = 0u32;
    // Counted by hand: with a range here the tick of a cell costs a tenth more.
    while wide(r) <= most {
        if ts == 0 {
            return ended(None, z, r);
        }
        let round = round_of(sheet, plan, ts);
        let es = round.chosen;
        let m = round.moves;
        if m.clashes.meets(es) {
            return ended(Some(Refusal::Ambiguous), z, r);
        }
        if es.meets(z.taken) {
            return ended(Some(Refusal::Restless), z, r);
        }
        z = after_round(z, m.ends, es);
        ts = triggered(sheet, m.next & hits, m.next & mixed, z, begun, input);
        r += 1;
    }
    ended(None, z, r)
}

// What a tick from a mode set (0: power-on) begins with.
pub fn start_of(sheet: &[u32], plan: &Plan, set: u32) -> Start
    requires { Planned sheet.now plan.now }
    ensures { StartOf sheet.now set result }
{
    if set == 0 {
        let begun = plan.start;
        let live = from_set(sheet, plan, begun);
        return Start {
            begun,
            entered: begun,
            live,
            unsure: live & plan.mixed,
        };
    }
    let live = from_set(sheet, plan, set);
    Start {
        begun: set,
        entered: 0,
        live,
        unsure: live & plan.early,
    }
}

// The transitions triggered where a tick begins.
pub fn first_triggered(sheet: &[u32], plan: &Plan, b: Start, due: u64, input: u32) -> u64
    requires { Planned sheet.now plan.now × Before sheet.now b due × (input < 2 ^ k_of sheet.now) }
    ensures { result ≡ triggered sheet.now due input (start_sets b) }
{
    let sure = b.live & (due | hits(sheet, plan, input));
    let z = Sets {
        modes: b.begun,
        entered: b.entered,
        exited: 0,
        taken: 0,
    };
    triggered(sheet, sure, b.unsure, z, b.begun, input)
}

// The five words of a tick that began in these modes.
pub fn five_words(begun: u32, o: Ticked) -> Five
    ensures { five_of result ≡ five_words (tick_of begun o).sets }
{
    let entered = transitions::low(o.changed);
    Five {
        entered,
        exited: transitions::high(o.changed),
        active: begun | entered,
        low: transitions::low(o.taken),
        high: transitions::high(o.taken),
    }
}
