// A sheet: its words read, containment and meeting mode, refusals 1 to 6.
#![tactic(auto)]

ghost use Rattle.std.specs.Prelude.{◌≡◌};
ghost use Rattle.meaning.specs.Check.{head_ok, sheet_refusal};
ghost use Rattle.meaning.specs.Refusal.{err_or_0};

mod ends;
pub mod hierarchy;
pub mod kinds;
mod modes;
mod pairs;
mod terms;
pub mod within;
pub mod words;

use meaning::refusal::Refusal;

// Refusal 1: the head, and room for the mode rows and the pairs.
fn head_ok(sheet: &[u32]) -> bool
    ensures { result ≡ head_ok sheet.now }
{
    if sheet.len() < 3 {
        return false;
    }
    let n = words::wide(sheet[0]);
    let k = sheet[1];
    let t = words::wide(sheet[2]);
    if n < 1 || 32 < n || 6 < k || 64 < t {
        return false;
    }
    3 + 3 * n + 2 * t <= sheet.len()
}

// Sheet check: the lowest of 1 to 6 that applies to a list of words, of any length.
pub fn check(sheet: &[u32]) -> Result<(), Refusal>
    ensures { err_or_0 result ≡ sheet_refusal sheet.now }
{
    if !head_ok(sheet) {
        return Err(Refusal::Head);
    }
    if !modes::modes_ok(sheet) {
        return Err(Refusal::ModeRow);
    }
    if !pairs::pairs_ok(sheet) {
        return Err(Refusal::Pair);
    }
    if !ends::ends_ok(sheet) {
        return Err(Refusal::Ends);
    }
    if !terms::terms_ok(sheet) {
        return Err(Refusal::Term);
    }
    if !ends::distinct_ok(sheet) {
        return Err(Refusal::SharedEnds);
    }
    Ok(())
}
