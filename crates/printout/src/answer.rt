// The answer to the numbers of a text.
ghost use Rattle.std.specs.Prelude.{◌≡◌};
ghost use Rattle.meaning.specs.Run.{power_on};
ghost use Rattle.meaning.specs.TableRun.{table_run};
ghost use Rattle.printout.specs.Answers.{ran_answer, answer_to_sheet, answer_to};

use decimals::request::{Request, asked};
use meaning::refusal::number;
use run::state::fresh;

// The words lent to compile, for table and work list.
const TABLE_ROOM: usize = 8192;

const WORK_ROOM: usize = 1024;

// Only `refused` and a number; or a header with the lines of the ticks done, and the number of the run's refusal, 0 for none.
#[derive(Clone, Copy)]
pub enum Answer {
    Refused(u32),
    Ran { done: usize, refusal: u32 },
}

// The table run from power-on.
fn run_table(table: &[u32], inputs: &[u32], out: &mut [u32]) -> Answer
    ensures { record { answer = result; out = out.new }
        ≡ ran_answer (table_run table.now power_on inputs.now out.old) }
{
    let ran = recorder::table_run::run(table, fresh(), inputs, out);
    Answer::Ran {
        done: ran.done.0,
        refusal: number(ran.refusal),
    }
}

// The sheet compiled, and its table run.
fn compile_and_run(sheet: &[u32], inputs: &[u32], out: &mut [u32]) -> Answer
    ensures { record { answer = result; out = out.new }
        ≡ answer_to_sheet sheet.now inputs.now out.old }
{
    let mut table = [0; TABLE_ROOM];
    let mut work = [0; WORK_ROOM];
    let compiled = compiler::compile(sheet, &mut table, &mut work);
    match compiled.table_length {
        Ok(length) => run_table(&table[..length], inputs, out),
        Err(why) => Answer::Refused(u32::from(why)),
    }
}

// The answer to the numbers of a text; good: it is one of decimals. The words of the ticks done go to out.
pub fn answer_to(good: bool, numbers: &[u32], out: &mut [u32]) -> Answer
    ensures { record { answer = result; out = out.new } ≡ answer_to good numbers.now out.old }
{
    match asked(numbers) {
        Some(Request { words, ticks }) if good => compile_and_run(
            &numbers[1..1 + words],
            &numbers[2 + words..2 + words + ticks],
            out,
        ),
        _ => Answer::Refused(0),
    }
}
