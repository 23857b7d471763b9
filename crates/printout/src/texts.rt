// Texts on standard input, and the answer to each on standard output. A text ends where the input ends, and at the byte `end`, if
// there is one.
ghost use Rattle.std.specs.Prelude.{◌≡◌, length};
ghost use Rattle.decimals.specs.Reading.{Fits, reading_of, begun, with_gap};
ghost use Rattle.decimals.specs.Request.{most_numbers};
ghost use Rattle.printout.specs.Texts.{after_byte, after_part, AfterInput, answer_read};

use super::answer::{Answer, answer_to};
use super::print::print_answer;
use decimals::reader::Reader;
use decimals::request::{MOST_NUMBERS, MOST_TICKS};

// Five output words for each tick.
const OUTPUT_ROOM: usize = 5 * MOST_TICKS;

// The answer to a text that is read, and ends here.
fn answer_read(mut reader: Reader, numbers: &mut [u32], out: &mut [u32]) -> Answer
    requires { Fits most_numbers (reading_of reader numbers.old) }
    ensures { record { answered = record { answer = result; out = out.new }; words = numbers.new }
        ≡ answer_read (reading_of reader numbers.old) out.old }
{
    reader.read_gap(numbers);
    answer_to(reader.good, &numbers[..reader.count], out)
}

// Prints the answer to a text that is read, and begins the next.
fn next_text(reader: &mut Reader, numbers: &mut [u32])
    requires { Fits most_numbers (reading_of reader.old numbers.old) }
    ensures { reading_of reader.new numbers.new ≡ begun (with_gap (reading_of reader.old numbers.old)).words }
{
    let mut out = [0; OUTPUT_ROOM];
    let answer = answer_read(*reader, numbers, &mut out);
    print_answer(answer, &out);
    *reader = Reader::new();
}

// A byte of the input: it ends a text, or is one of it.
fn after_byte(reader: &mut Reader, end: Option<u8>, byte: u8, numbers: &mut [u32])
    requires { Fits most_numbers (reading_of reader.old numbers.old) }
    ensures { reading_of reader.new numbers.new ≡ after_byte end (reading_of reader.old numbers.old) byte }
{
    if end == Some(byte) {
        next_text(reader, numbers);
    } else {
        reader.read_byte(byte, numbers);
    }
}

// A part of the input.
fn after_part(reader: &mut Reader, end: Option<u8>, part: &[u8], numbers: &mut [u32])
    requires { Fits most_numbers (reading_of reader.old numbers.old) }
    ensures { reading_of reader.new numbers.new ≡ after_part end (reading_of reader.old numbers.old) part.now }
{
    for &byte in part {
        after_byte(reader, end, byte, numbers);
    }
}

// Reads standard input to its end and answers each text that a byte ends; what is read of the last. No run takes all the turns,
// which are counted since nothing says that the input ends.
fn last_text(end: Option<u8>, numbers: &mut [u32]) -> Reader
    requires { length numbers.old ≡ most_numbers }
    ensures { AfterInput end (reading_of result numbers.new) }
{
    let mut part = io::buffer();
    let mut reader = Reader::new();
    for _ in 0..u64::MAX {
        let n = io::read_full(0, &mut part);
        if n == 0 {
            break;
        }
        after_part(&mut reader, end, &part[..n], numbers);
    }
    reader
}

// Answers each text of standard input.
pub fn answer_texts(end: Option<u8>) {
    let mut numbers = [0; MOST_NUMBERS];
    let mut reader = last_text(end, &mut numbers);
    next_text(&mut reader, &mut numbers);
}
