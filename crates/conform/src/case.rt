// The cases of the program, by their numbers.

// What a case asks for: another sheet and its check, a compilation, a change of the current table, an answer alone.
#[derive(Clone, Copy)]
pub enum Case {
    Check,
    Compile,
    Change(Change),
    Ask(Question),
}

// A change of the current table: a word written, another length, another table.
#[derive(Clone, Copy)]
pub enum Change {
    WriteWord,
    Length,
    Table,
}

// A question, which leaves the current sheet and the current table as they are.
#[derive(Clone, Copy)]
pub enum Question {
    SheetRun,
    TableRun,
    Why,
    Within,
    Accept,
    Alternatives,
    Stations,
    Milliseconds,
}

// A number that is no case.
#[derive(Clone, Copy)]
pub struct NoCase;

impl TryFrom<u32> for Case {
    type Error = NoCase;

    fn try_from(number: u32) -> Result<Self, NoCase> {
        match number {
            1 => Ok(Case::Check),
            2 => Ok(Case::Ask(Question::SheetRun)),
            3 => Ok(Case::Compile),
            4 => Ok(Case::Ask(Question::TableRun)),
            5 => Ok(Case::Change(Change::WriteWord)),
            6 => Ok(Case::Change(Change::Length)),
            11 => Ok(Case::Ask(Question::Why)),
            13 => Ok(Case::Ask(Question::Within)),
            14 => Ok(Case::Ask(Question::Accept)),
            15 => Ok(Case::Ask(Question::Alternatives)),
            16 => Ok(Case::Ask(Question::Stations)),
            17 => Ok(Case::Ask(Question::Milliseconds)),
            24 => Ok(Case::Change(Change::Table)),
            _ => Err(NoCase),
        }
    }
}
