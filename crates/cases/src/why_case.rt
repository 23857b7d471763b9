// The case of why a transition stayed put: what it reads after its number, the call that it makes and the line that it writes.
ghost use Rattle.std.specs.Prelude.{◌+◌, ◌≤◌};

use case_text::line::{LentLine, Line};
use case_text::text::Text;
use meaning::refusal::Refusal;
use reaction::why::Why;

// No refusal, and the number of a reason.
fn put_reason(line: &mut LentLine, reason: u32)
    requires { line.old ≤ 64 }
    ensures { line.new ≤ line.old + 42 }
{
    line.put(0u32);
    line.put(reason);
}

// What is reported, or the refusal.
fn put_report(line: &mut LentLine, why: Result<Why, Refusal>)
    requires { line.old ≤ 64 }
    ensures { line.new ≤ line.old + 84 }
{
    match why {
        Err(refusal) => line.put_refusal(Some(refusal)),
        Ok(Why::NeverActive) => put_reason(line, 0),
        Ok(Why::NeverTriggered) => put_reason(line, 1),
        Ok(Why::GaveWay(to)) => {
            put_reason(line, 2);
            line.put(to);
        }
        Ok(Why::Taken(round, alternative)) => {
            put_reason(line, 3);
            line.put(round);
            line.put(alternative);
        }
    }
}

// Case 11: why a transition of the current sheet stayed put in the tick from a state on an input set.
pub fn why(text: &mut Text, sheet: &[u32]) {
    let mut bytes = [0; 8192];
    let state = text.state();
    let set = text.number();
    let transition = text.number();
    let mut line = Line::start_in(&mut bytes, b"why");
    put_report(
        &mut line,
        simulator::why::why(sheet, state, set, transition),
    );
    line.write();
}
