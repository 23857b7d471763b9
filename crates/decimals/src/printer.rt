// Numbers printed in decimal.
ghost use Rattle.std.specs.Prelude.{◌≡◌, ◌+◌, ◌*◌, ◌≤◌, length};
ghost use Rattle.rows.specs.Over.{over};
ghost use Rattle.decimals.specs.Printing.{decimal_of, line_put};

// A number into the line at a place; the place after it.
fn put(line: &mut [u8], at: usize, n: u32) -> usize
    requires { at + 10 ≤ length line.old }
    ensures { (line.new ≡ over line.old at (decimal_of n))
        × (result ≡ at + length (decimal_of n))
        × (result ≤ at + 10) }
{
    let mut digits = [0u8; 20];
    let count = io::decimal(u64::from(n), &mut digits);
    line[at..at + count].copy_from_slice(&digits[..count]);
    at + count
}

// The line of a row of numbers, one space between; how many bytes it has. Later bytes stay.
fn put_row(line: &mut [u8], row: &[u32]) -> usize
    requires { (1 ≤ length row.now) × (11 * length row.now ≤ length line.old) }
    ensures { record { count = result; line = line.new } ≡ line_put row.now line.old }
{
    let mut at = 0;
    for (j, &n) in row.iter().enumerate() {
        at = put(line, at, n);
        line[at] = if j + 1 < row.len() { b' ' } else { b'\n' };
        at += 1;
    }
    at
}

// The same of six numbers.
pub fn put_line(line: &mut [u8; 128], row: &[u32; 6]) -> usize
    ensures { record { count = result; line = line.new } ≡ line_put row.now line.old }
{
    put_row(line, row)
}
