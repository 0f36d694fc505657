// Printing words and numbers, for the programs over the check, and the line on standard error that says what failed. A function that
// prints answers whether the writer took all that was to be printed, or the system's error.
#![tactic(auto)]

ghost use Rattle.std.specs.Prelude.{OnOk, decimal};
ghost use Rattle.std.specs.Io.KnownBytes.{Appends};

use std::io::{Cursor, Error, Write};
use std::{io, str};

// Room for what an error prints.
const ROOM: usize = 512;

pub fn print<W: Write>(out: &mut W, text: &[u8]) -> io::Result<()>
    ensures { OnOk result (Appends (W.contents out.old) (W.contents out.new) text.now) }
{
    out.write_all(text)
}

pub fn print_decimal<W: Write>(out: &mut W, number: u32) -> io::Result<()>
    ensures { OnOk result (Appends (W.contents out.old) (W.contents out.new) (decimal number)) }
{
    print_wide(out, u64::from(number))
}

pub fn print_wide<W: Write>(out: &mut W, number: u64) -> io::Result<()>
    ensures { OnOk result (Appends (W.contents out.old) (W.contents out.new) (decimal number)) }
{
    write!(out, "{number}")
}

// What an error prints, without the system's number for it, which `std` prints behind the system's reason.
fn reason_in(printed: &[u8]) -> &str {
    let text = str::from_utf8(printed).unwrap_or("");
    text.split_once(" (os error ")
        .map_or(text, |(reason, _)| reason)
}

fn print_reason<E: Write>(errors: &mut E, error: Error) -> io::Result<()> {
    let mut printed = Cursor::new([0u8; ROOM]);
    write!(printed, "{error}")?;
    let end = printed.position() as usize;
    let room = printed.into_inner();
    let reason = reason_in(&room[..end.min(ROOM)]);
    writeln!(errors, ": {reason}")
}

fn print_failure<E: Write>(errors: &mut E, what: &[u8], error: Error) -> io::Result<()> {
    print(errors, what)?;
    print_reason(errors, error)
}

// A line on standard error: what failed, and the system's reason. If that line cannot be written either, there is no place left to tell it.
pub fn tell<E: Write>(errors: &mut E, what: &[u8], error: Error) {
    let _ = print_failure(errors, what, error);
}

// After the last print of a program, or the first that the system did not take: that is then told, with its reason, on standard error.
pub fn conclude<E: Write>(errors: &mut E, printed: io::Result<()>) {
    if let Err(error) = printed {
        tell(errors, b"standard output", error);
    }
}
