// An answer on standard output.
ghost use Rattle.std.specs.Prelude.{◌≡◌, ◌+◌, ◌*◌, ◌≤◌, length};
ghost use Rattle.printout.specs.Answers.{output_room, ticks_done, tick_row};

use super::answer::Answer;
use decimals::printer::put_line;

fn print_refusal(n: u32) {
    io::write_all(1, b"refused ");
    io::print_decimal(1, u64::from(n));
    io::write_all(1, b"\n");
}

// The numbers in the line of tick i: its own and its five words.
fn tick_row(out: &[u32], i: usize) -> [u32; 6]
    requires { (5 * i + 5 ≤ length out.now) × (length out.now ≤ output_room) }
    ensures { result ≡ tick_row out.now i }
{
    let mut row = [0; 6];
    row[0] = i as u32;
    row[1..].copy_from_slice(&out[5 * i..5 * i + 5]);
    row
}

// The line of tick i.
fn print_tick(out: &[u32], i: usize)
    requires { (5 * i + 5 ≤ length out.now) × (length out.now ≤ output_room) }
{
    let mut line = [0u8; 128];
    let n = put_line(&mut line, &tick_row(out, i));
    io::write_all(1, &line[..n]);
}

// The header and the lines of the ticks done.
fn print_ticks(out: &[u32], done: usize)
    requires { (5 * done ≤ length out.now) × (length out.now ≤ output_room) }
{
    io::write_all(1, b"tick entered exited active taken_low taken_high\n");
    for i in 0..done {
        print_tick(out, i);
    }
}

// Only the refusal; or the header and the ticks, and the refusal if it is not 0.
pub fn print_answer(answer: Answer, out: &[u32])
    requires { (5 * ticks_done answer ≤ length out.now) × (length out.now ≤ output_room) }
{
    match answer {
        Answer::Refused(refusal) => print_refusal(refusal),
        Answer::Ran { done, refusal } => {
            print_ticks(out, done);
            if refusal != 0 {
                print_refusal(refusal);
            }
        }
    }
}
