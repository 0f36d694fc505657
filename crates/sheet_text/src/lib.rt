// Rows of a sheet file as text: a writer is lent the rest of the output, from its first byte on, and says how many bytes it wrote.
#![tactic(auto)]

ghost use Rattle.std.specs.Prelude.{◌≡◌, [], ◌∷◌, ◌+◌, ◌<◌, ◌≤◌, length};
ghost use Rattle.model.specs.Limits.{number_most};
ghost use Rattle.model.specs.Cure.{digit as digit_byte, digits_of, row_text, heading_text};
ghost use Rattle.sheet_text.specs.Writing.{Puts, Writes, row_of, digits_most, row_bytes_most, heading_bytes};

const SPACE: u8 = 32;

const LINE_END: u8 = 10;

// The byte of 0.
const DIGIT: u8 = 48;

const HEADING: [u8; 13] = [107, 105, 110, 100, 32, 111, 110, 101, 32, 116, 119, 111, 10];

// A byte at its place; the place behind it.
fn put(rest: &mut [u8], at: usize, byte: u8) -> usize
    requires { at < length rest.old }
    ensures { Puts at (byte ∷ []) rest.old rest.new result }
{
    rest[at] = byte;
    at + 1
}

// The byte of a digit.
fn digit(d: u16) -> u8
    requires { d < 10 }
    ensures { result ≡ digit_byte d }
{
    DIGIT + d as u8
}

// A number in decimal, without leading zeros; the place behind it.
fn put_number(rest: &mut [u8], at: usize, number: u16) -> usize
    requires { (at + digits_most ≤ length rest.old) × (number ≤ number_most) }
    ensures puts { Puts at (digits_of number) rest.old rest.new result }
    ensures upper_bound { result ≤ at + digits_most }
{
    if number < 10 {
        return put(rest, at, digit(number));
    }
    if number < 100 {
        let last = put(rest, at, digit(number / 10));
        return put(rest, last, digit(number % 10));
    }
    let second = put(rest, at, digit(number / 100));
    let last = put(rest, second, digit(number / 10 % 10));
    put(rest, last, digit(number % 10))
}

// A row: its letter and its two numbers, one space between, and the line end.
pub fn write_row(rest: &mut [u8], letter: u8, one: u16, two: u16) -> usize
    requires { (row_bytes_most ≤ length rest.old) × (one ≤ number_most) × (two ≤ number_most) }
    ensures { Writes (row_text (row_of letter one two)) rest.old rest.new result }
{
    let gap = put(rest, 0, letter);
    let first = put(rest, gap, SPACE);
    let between = put_number(rest, first, one);
    let second = put(rest, between, SPACE);
    let end = put_number(rest, second, two);
    put(rest, end, LINE_END)
}

// The house heading.
pub fn write_heading(rest: &mut [u8]) -> usize
    requires { heading_bytes ≤ length rest.old }
    ensures { Writes heading_text rest.old rest.new result }
{
    for i in 0..HEADING.len() {
        rest[i] = HEADING[i];
    }
    HEADING.len()
}
