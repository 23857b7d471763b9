// The kinds of modes and of terms, by the document's numbers.
ghost use Rattle.sheet.specs.Kinds.{IsModeKind, IsTermKind};

// What a mode's children are: none, one at a time, all at once.
#[derive(Clone, Copy, Debug, PartialEq, Eq)]
pub enum ModeKind {
    Atomic = 0,
    Serial = 1,
    Parallel = 2,
}

// What a term is about: a delay; an event present or absent; modes active; a mode entered or exited; a transition taken; or where an
// alternative ends.
#[derive(Clone, Copy, Debug, PartialEq, Eq)]
pub enum TermKind {
    Delay = 0,
    Present = 1,
    Absent = 2,
    Active = 3,
    Entered = 4,
    Exited = 5,
    Taken = 6,
    Or = 7,
}

// A number that is no kind.
#[derive(Clone, Copy, Debug, PartialEq, Eq)]
pub struct UnknownKind(pub u32);

impl TryFrom<u32> for ModeKind {
    type Error = UnknownKind;

    ghost try_from_gives = { IsModeKind };

    fn try_from(number: u32) -> Result<ModeKind, UnknownKind> {
        match number {
            0 => Ok(ModeKind::Atomic),
            1 => Ok(ModeKind::Serial),
            2 => Ok(ModeKind::Parallel),
            _ => Err(UnknownKind(number)),
        }
    }
}

impl TryFrom<u32> for TermKind {
    type Error = UnknownKind;

    ghost try_from_gives = { IsTermKind };

    fn try_from(number: u32) -> Result<TermKind, UnknownKind> {
        match number {
            0 => Ok(TermKind::Delay),
            1 => Ok(TermKind::Present),
            2 => Ok(TermKind::Absent),
            3 => Ok(TermKind::Active),
            4 => Ok(TermKind::Entered),
            5 => Ok(TermKind::Exited),
            6 => Ok(TermKind::Taken),
            7 => Ok(TermKind::Or),
            _ => Err(UnknownKind(number)),
        }
    }
}
