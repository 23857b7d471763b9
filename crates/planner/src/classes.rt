// Timers, the transitions that input sets trigger by themselves, and the rest.
ghost use Rattle.std.specs.Prelude.{◌≡◌, ◌<◌, replicate};
ghost use Rattle.meaning.specs.Sheet.{t_of};
ghost use Rattle.meaning.specs.Check.{sheet_refusal};
ghost use Rattle.reaction.specs.Plan.{timers, timer_delay, mixed, early};
ghost use Rattle.planner.specs.Parts.{Words, is_sure, sure};

use reaction::terms::{delay, events_only, is_delay, is_timer, judged};
use sets::set::Set;
use sheet::words::transition_count;

// Transition t has delay 0, or event terms alone.
fn is_sure(sheet: &[u32], t: usize) -> bool
    requires { (sheet_refusal sheet.now ≡ 0) × (t < t_of sheet.now) }
    ensures { result ≡ is_sure sheet.now t }
{
    if is_delay(sheet, t) {
        return delay(sheet, t) == 0;
    }
    events_only(sheet, t)
}

// The timers, and the transitions that an input set can trigger by itself.
#[derive(Clone, Copy)]
pub struct Classed {
    pub timing: u64,
    pub certain: u64,
}

pub fn classes_of(sheet: &[u32]) -> Classed
    requires { sheet_refusal sheet.now ≡ 0 }
    ensures { (result.timing ≡ timers sheet.now) × (result.certain ≡ sure sheet.now) }
{
    let mut timing = 0u64;
    let mut certain = 0u64;
    for t in 0..transition_count(sheet) {
        timing |= u64::single_if(is_timer(sheet, t), t);
        certain |= u64::single_if(is_sure(sheet, t), t);
    }
    Classed { timing, certain }
}

// The transitions that are neither.
pub fn mixed(sheet: &[u32], timing: u64, certain: u64) -> u64
    requires { (sheet_refusal sheet.now ≡ 0) × (timing ≡ timers sheet.now) × (certain ≡ sure sheet.now) }
    ensures { result ≡ mixed sheet.now }
{
    u64::below(transition_count(sheet)).minus(timing | certain)
}

// Those of them whose terms can hold before anything is entered, exited or taken: on every event present and absent, in all modes.
pub fn early(sheet: &[u32], set: u64) -> u64
    requires { (sheet_refusal sheet.now ≡ 0) × (set ≡ mixed sheet.now) }
    ensures { result ≡ early sheet.now }
{
    let all = 0xffff_ffff_ffff_ffffu64;
    let f = [0u64, all, all, all, 0, 0, 0, 0];
    judged(sheet, 0xffff_ffff, set, &f)
}

// Each timer's delay is stored.
pub fn put_delays(sheet: &[u32], timing: u64, delays: &mut [u64; 64])
    requires { (sheet_refusal sheet.now ≡ 0) × (timing ≡ timers sheet.now) × (delays.old ≡ replicate 64 0) }
    ensures { Words delays.new 64 (timer_delay sheet.now) }
{
    for t in timing.members() {
        delays[t] = u64::from(delay(sheet, t));
    }
}
