// The timer words of a table.
ghost use Rattle.std.specs.Prelude.{◌≡◌, ◌<◌};
ghost use Rattle.meaning.specs.Sheet.{t_of};
ghost use Rattle.meaning.specs.Compile.{timer_word};
ghost use Rattle.reaction.specs.Plan.{Planned};

use reaction::plan::Plan;
use sets::transitions;
use sheet::words::source;

// A timer's source and delay in one word, else 0.
pub fn timer_word(sheet: &[u32], plan: &Plan, t: usize) -> u32
    requires { Planned sheet.now plan.now × (t < t_of sheet.now) }
    ensures { result ≡ timer_word sheet.now t }
{
    let d = transitions::low(plan.delays[t]);
    if d == 0 {
        return 0;
    }
    (source(sheet, t) as u32) * 65536 + d
}
