// Ages during a run: for each mode the tick, counted from 1 in the call, in which its age reaches its limit, 65,535.
ghost use Rattle.std.specs.Prelude.{◌≡◌, true, List, ◌∷◌, ℕ, ◌+◌, ◌-◌, ◌*◌, ◌^◌, ◌<◌, ◌≤◌, length, get_or};
ghost use Rattle.sets.specs.Sets.{has, union, minus};
ghost use Rattle.rows.specs.Over.{over};
ghost use Rattle.meaning.specs.Lists.{row_from};
ghost use Rattle.meaning.specs.Ages.{ages_ok};
ghost use Rattle.run.specs.Entries.{ages_by, entered_at, limits_by};

use super::sums::sum_of;
use sets::set::Set;

// The tick in which each age at the start of a call reaches its limit.
pub fn age_limits(ages: [u32; 32]) -> [u64; 32]
    ensures { result ≡ row_from 0 32 (λ m. 65535 - get_or ages m 0) }
{
    // A `map` over the array costs a run of one tick half its time.
    let mut limits = [0u64; 32];
    for (m, &age) in ages.iter().enumerate() {
        limits[m] = u64::from(65535u32.saturating_sub(age));
    }
    limits
}

// An age in a tick, by the tick of its limit.
fn age_at(limit: u64, tick: u64) -> u32
    requires { limit ≤ tick + 65535 }
    ensures { result ≡ 65535 - (limit - tick) }
{
    if limit <= tick {
        return 65535;
    }
    (65535 - (limit - tick)) as u32
}

// The ages of the active modes after a tick; none of them is yet to be entered.
pub fn ages_at(limits: &[u64; 32], active: u32, tick: u64) -> [u32; 32]
    requires { (m : ℕ) → has active m ≡ true → get_or limits.now m 0 ≤ tick + 65535 }
    ensures { result ≡ ages_by limits.now active tick }
{
    let mut r = [0u32; 32];
    for m in active.members() {
        r[m] = age_at(limits[m], tick);
    }
    r
}

// The modes of a set are entered in a tick.
pub fn enter(limits: &mut [u64; 32], set: u32, tick: u64)
    requires { (length limits.old ≡ 32) × (tick < 2 ^ 62) }
    ensures { limits.new ≡ entered_at set tick limits.old }
{
    for m in set.members() {
        limits[m] = tick + 65535;
    }
}

// The modes of a set were last entered as the words of the ticks done say.
pub fn enter_by_words(out: &[u32], limits: &mut [u64; 32], set: u32, done: usize)
    requires { (length limits.old ≡ 32) × (5 * done ≤ length out.now) }
    ensures { limits.new ≡ limits_by limits.old out.now set done }
{
    if set == 0 {
        return;
    }
    let mut wanted = set;
    for p in (0..done).rev() {
        let found = wanted & out[5 * p];
        if found != 0 {
            enter(limits, found, (p + 1) as u64);
            wanted = wanted.minus(found);
            if wanted == 0 {
                return;
            }
        }
    }
}

// What a tick enters, after i ticks done, is noted; it leaves `next` active. `seen` has the modes whose last entry the words of the
// ticks done tell; returned are those of which the words tell it with this tick's. At power-on, and where a mode comes late, active
// without being entered, the entries are stored at once: a late mode had age 0.
pub fn note_entries(
    limits: &mut [u64; 32],
    seen: u32,
    active: u32,
    next: u32,
    entered: u32,
    i: usize,
) -> u32
    requires { (length limits.old ≡ 32) × (i < 2 ^ 61) }
    ensures { ((out ws : List ℕ) → length ws ≡ 4 → 5 * i + 5 ≤ length out
        → limits_by limits.new (over out (5 * i) (entered ∷ ws)) result (i + 1)
        ≡ entered_at entered (i + 1)
        (entered_at (minus next (union active entered)) i (limits_by limits.old out seen i)))
        × (length limits.new ≡ 32) }
{
    let late = next.minus(active | entered);
    if late == 0 && active != 0 {
        return seen | entered;
    }
    enter(limits, late, i as u64);
    enter(limits, entered, (i + 1) as u64);
    seen.minus(late | entered)
}

// Every age of an active mode is at most 65,535, and the others are 0: all ages add up to what those of the active modes do.
pub fn ages_ok(active: u32, ages: &[u32; 32]) -> bool
    ensures { result ≡ ages_ok active ages.now }
{
    let mut sum = 0u64;
    for m in active.members() {
        if 65535 < ages[m] {
            return false;
        }
        sum += u64::from(ages[m]);
    }
    sum == sum_of(ages)
}
