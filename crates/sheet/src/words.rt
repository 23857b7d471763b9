// Where a sheet's words stand.
ghost use Rattle.std.specs.Prelude.{◌≡◌, ◌+◌, ◌*◌, T};
ghost use Rattle.meaning.specs.Sheet.{n_of, k_of, t_of, kind, parent, first, is_child, offset, record_length, source, target, term_count, term_kind, term_value};
ghost use Rattle.meaning.specs.Check.{head_ok};
ghost use Rattle.sheet.specs.Reading.{Row, Pair, Record, Term};

// A word as a number of places.
pub fn wide(x: u32) -> usize
    ensures { result ≡ x }
{
    x as usize
}

// n, k and T.
pub fn mode_count(sheet: &[u32]) -> usize
    requires { T (head_ok sheet.now) }
    ensures { result ≡ n_of sheet.now }
{
    wide(sheet[0])
}

pub fn event_count(sheet: &[u32]) -> u32
    requires { T (head_ok sheet.now) }
    ensures { result ≡ k_of sheet.now }
{
    sheet[1]
}

pub fn transition_count(sheet: &[u32]) -> usize
    requires { T (head_ok sheet.now) }
    ensures { result ≡ t_of sheet.now }
{
    wide(sheet[2])
}

// Mode m: kind (0 atomic, 1 serial, 2 parallel), parent, first mode.
pub fn kind(sheet: &[u32], m: usize) -> u32
    requires { Row sheet.now m }
    ensures { result ≡ kind sheet.now m }
{
    sheet[3 + 3 * m]
}

pub fn parent(sheet: &[u32], m: usize) -> usize
    requires { Row sheet.now m }
    ensures { result ≡ parent sheet.now m }
{
    wide(sheet[4 + 3 * m])
}

pub fn first(sheet: &[u32], m: usize) -> usize
    requires { Row sheet.now m }
    ensures { result ≡ first sheet.now m }
{
    wide(sheet[5 + 3 * m])
}

// Mode m is a child of mode p.
pub fn is_child(sheet: &[u32], p: usize, m: usize) -> bool
    requires { Row sheet.now m }
    ensures { result ≡ is_child sheet.now p m }
{
    0 < m && parent(sheet, m) == p
}

// Where the first record begins.
pub fn records_start(sheet: &[u32]) -> usize
    requires { T (head_ok sheet.now) }
    ensures { result ≡ 3 + 3 * n_of sheet.now + 2 * t_of sheet.now }
{
    3 + 3 * mode_count(sheet) + 2 * transition_count(sheet)
}

// Transition t: its record's offset and length.
pub fn offset(sheet: &[u32], t: usize) -> usize
    requires { Pair sheet.now t }
    ensures { result ≡ offset sheet.now t }
{
    wide(sheet[3 + 3 * mode_count(sheet) + 2 * t])
}

pub fn record_length(sheet: &[u32], t: usize) -> usize
    requires { Pair sheet.now t }
    ensures { result ≡ record_length sheet.now t }
{
    wide(sheet[4 + 3 * mode_count(sheet) + 2 * t])
}

// Its source and target.
pub fn source(sheet: &[u32], t: usize) -> usize
    requires { Record sheet.now t }
    ensures { result ≡ source sheet.now t }
{
    wide(sheet[offset(sheet, t)])
}

pub fn target(sheet: &[u32], t: usize) -> usize
    requires { Record sheet.now t }
    ensures { result ≡ target sheet.now t }
{
    wide(sheet[offset(sheet, t) + 1])
}

// Its terms: how many, and the kind and value of term j.
pub fn term_count(sheet: &[u32], t: usize) -> usize
    requires { Record sheet.now t }
    ensures { result ≡ term_count sheet.now t }
{
    record_length(sheet, t) / 2 - 1
}

pub fn term_kind(sheet: &[u32], t: usize, j: usize) -> u32
    requires { Term sheet.now t j }
    ensures { result ≡ term_kind sheet.now t j }
{
    sheet[offset(sheet, t) + 2 + 2 * j]
}

pub fn term_value(sheet: &[u32], t: usize, j: usize) -> u32
    requires { Term sheet.now t j }
    ensures { result ≡ term_value sheet.now t j }
{
    sheet[offset(sheet, t) + 3 + 2 * j]
}
