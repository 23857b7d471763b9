// The current sheet and the current table, and the answer of a case on them.
ghost use Rattle.std.specs.Prelude.{◌≡◌, ◌≤◌, []};
ghost use Rattle.conform.specs.declared.case.Question.{Question};

use super::case::{Case, Change, Question};
use case_text::text::Text;
use cases::{
    acceptance_case, alternatives_case, compile_case, milliseconds_case, sheet_case, table_case,
    why_case, within_case,
};
use std::marker::Model;

// The current sheet is the first sheet_length words of `sheet`. Of `table` the first words are lent, and of these the first
// table_length are the current table.
#[derive(Drop)]
pub struct Current {
    sheet: [u32; 4096],
    sheet_length: usize,
    table: [u32; 65536],
    lent: usize,
    table_length: usize,
}

// Clauses see the current sheet, the current table and how many words are lent.
impl Model for Current {
    ghost use Rattle.std.specs.Prelude.{ℕ, List, take, ◌≤◌};

    ghost Value = { List ℕ × List ℕ × ℕ };

    ghost view = { λ c. (take c.sheet_length c.sheet, take c.table_length c.table, c.lent) };

    ghost invariant = { λ c. (c.sheet_length ≤ 4096) × (c.lent ≤ 65536) × (c.table_length ≤ c.lent) };
}

impl Current {
    // No sheet and no table yet.
    pub fn new() -> Self
        ensures { result ≡ ([], [], 0) }
    {
        Current {
            sheet: [0; 4096],
            sheet_length: 0,
            table: [0; 65536],
            lent: 0,
            table_length: 0,
        }
    }

    fn sheet(&self) -> &[u32]
        ensures { result.now ≡ self.now.0 }
    {
        &self.sheet[..self.sheet_length]
    }

    fn table(&self) -> &[u32]
        ensures { result.now ≡ self.now.1 }
    {
        &self.table[..self.table_length]
    }

    // Reads what a case has after its number and answers it. Only case 1 changes the current sheet; a question changes nothing.
    pub fn answer(&mut self, text: &mut Text, case: Case)
        ensures sheet { ¬ (case ≡ Case.Check) → self.new.0 ≡ self.old.0 }
        ensures question { (question : Question) → case ≡ Case.Ask question → self.new ≡ self.old }
    {
        match case {
            Case::Check => self.sheet_length = sheet_case::check(text, &mut self.sheet),
            Case::Compile => {
                let sheet = &self.sheet[..self.sheet_length];
                let built = compile_case::compile(text, sheet, &mut self.table);
                self.lent = built.lent;
                self.table_length = built.length;
            }
            Case::Change(change) => self.change_table(text, change),
            Case::Ask(question) => self.answer_only(text, question),
        }
    }

    // A change of the current table; only for another table may more words be lent.
    fn change_table(&mut self, text: &mut Text, change: Change)
        ensures sheet { self.new.0 ≡ self.old.0 }
        ensures lent { ¬ (change ≡ Change.Table) → self.new.2 ≤ self.old.2 }
    {
        match change {
            Change::WriteWord => table_case::write_word(text, &mut self.table[..self.lent]),
            Change::Length => self.table_length = text.count(self.lent),
            Change::Table => {
                self.lent = text.words(&mut self.table);
                self.table_length = self.lent;
            }
        }
    }

    // The answer of a question.
    fn answer_only(&self, text: &mut Text, question: Question) {
        match question {
            Question::SheetRun => sheet_case::sheet_run(text, self.sheet()),
            Question::TableRun => table_case::table_run(text, self.table()),
            Question::Why => why_case::why(text, self.sheet()),
            Question::Within => within_case::masks(self.sheet()),
            Question::Accept => acceptance_case::accept_table(self.sheet(), self.table()),
            Question::Alternatives => alternatives_case::alternatives(text, self.sheet()),
            Question::Stations => station_cases::serve_stations(text, self.table()),
            Question::Milliseconds => milliseconds_case::convert(text),
        }
    }
}
