// The cases of a sheet, check and sheet run: what each reads after its number, the call that it makes and the line that it writes.
ghost use Rattle.std.specs.Prelude.{◌+◌, ◌≤◌, length};

use case_text::digests::digest;
use case_text::line::{Bytes, Line};
use case_text::text::Text;
use run::counts::Rounds;
use simulator::sheet_run::{Ran, run};

// Case 1: a sheet, which is the current one from now on, and its check; how many words it has.
pub fn check(text: &mut Text, sheet: &mut [u32]) -> usize
    ensures { result ≤ length sheet.old }
{
    let mut bytes = [0; 8192];
    let words = text.words(sheet);
    let mut line = Line::start_in(&mut bytes, b"check");
    line.put_refusal(sheet::check(&sheet[..words]).err());
    line.write();
    words
}

// The rounds as one number, 2^64 - 1 where that is larger.
fn total(rounds: Rounds) -> u64 {
    let Rounds(whole, rest) = rounds;
    whole.saturating_mul(1 << 32).saturating_add(rest)
}

// The refusal of a sheet run, its ticks done and its rounds.
pub fn put_counts<B: Bytes>(line: &mut Line<B>, ran: &Ran)
    requires { line.old ≤ 64 }
    ensures { line.new ≤ line.old + 63 }
{
    line.put_refusal(ran.refusal);
    line.put(ran.done.0 as u64);
    line.put(total(ran.rounds));
}

// Case 2: a run of the current sheet; its numbers are not asked for.
pub fn sheet_run(text: &mut Text, sheet: &[u32]) {
    let mut inputs = [0; 64];
    let mut out = [u32::MAX; 400];
    let mut numbers = [0; 4096];
    let mut bytes = [0; 8192];
    let asked = text.run(&mut inputs, out.len());
    let out = &mut out[..asked.outputs];
    let ran = run(
        sheet,
        asked.state,
        &inputs[..asked.inputs],
        out,
        &mut numbers,
    );
    let mut line = Line::start_in(&mut bytes, b"sheet");
    put_counts(&mut line, &ran);
    line.put(digest(out));
    line.put_state(&ran.state);
    line.write();
}

#[cfg(test)]
mod tests {
    use super::*;
    use run::state::fresh;

    // The counts in a line that has bytes of its own and is handed on.
    fn counts(ran: &Ran) -> Line
        ensures { result ≤ 127 }
    {
        let mut line = Line::start(b"sheet");
        put_counts(&mut line, ran);
        line
    }

    #[test]
    fn counts_of_a_refused_run() {
        counts(&run(&[], fresh(), &[], &mut [], &mut [])).write();
    }
}
