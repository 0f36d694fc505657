// Input for the programs over the check: a read that fails is told from the end of the input, and a line on standard error says what failed.
#![tactic(auto)]

ghost use Rattle.std.specs.Prelude.{◌≡◌, ◌≤◌, length, take};
ghost use Rattle.input.specs.Reading.{read_of, Room, Taken, Handed, Whole};

use std::io::{Error, ErrorKind, Read, Write};
use std::rt::Files;
use std::{fs, io, str};

// One read into the bytes from `at` on: how many, 0 at the end of the input; or the system's reason why it failed.
fn read_part<R: Read>(reader: &mut R, bytes: &mut [u8], at: usize) -> io::Result<usize>
    requires { at ≤ length bytes.old }
    ensures room { Room result at (length bytes.old) }
    ensures ahead { take at bytes.new ≡ take at bytes.old }
    ensures taken { Taken result at (R.remaining reader.old) (R.remaining reader.new) bytes.new }
{
    reader.read(&mut bytes[at..])
}

// Reads to the end of the input, or as far as there is room.
fn read_all<R: Read>(reader: &mut R, bytes: &mut [u8]) -> io::Result<usize>
    ensures handed { Handed (read_of result) bytes.new }
    ensures whole { Whole (read_of result) (R.remaining reader.old) (R.remaining reader.new) bytes.new }
{
    let mut at = 0;
    // Not a `for`: each read says how many bytes it gave.
    while at < bytes.len() {
        let n = read_part(reader, bytes, at)?;
        if n == 0 {
            return Ok(at);
        }
        at += n;
    }
    Ok(at)
}

// A line on standard error: what could not be read, and the system's reason.
fn tell<E: Write>(errors: &mut E, name: &[u8], error: Error) {
    let what = if name.is_empty() {
        b"a file without a name"
    } else {
        name
    };
    printing::tell(errors, what, error);
}

// What was read. Where a read failed, nothing, and that is told.
fn told<E: Write>(errors: &mut E, name: &[u8], got: io::Result<usize>) -> Option<usize>
    ensures { result ≡ read_of got }
{
    if let Err(error) = got {
        tell(errors, name, error);
    }
    got.ok()
}

// The bytes up to the end of the input, or as many as there is room for. Where a read fails, a line on standard error says what could not be read.
pub fn read_told<R: Read, E: Write>(
    reader: &mut R,
    errors: &mut E,
    name: &[u8],
    bytes: &mut [u8],
) -> Option<usize>
    ensures handed { Handed result bytes.new }
    ensures whole { Whole result (R.remaining reader.old) (R.remaining reader.new) bytes.new }
{
    let got = read_all(reader, bytes);
    told(errors, name, got)
}

// Standard input.
pub fn read_standard<R: io::Input, E: Write>(
    rt: &R,
    errors: &mut E,
    bytes: &mut [u8],
) -> Option<usize>
    ensures { Handed result bytes.new }
{
    read_told(&mut rt.reader(), errors, b"standard input", bytes)
}

// The file of that name, which is text as each path of `std` is.
fn read_named<R: Files>(rt: &R, name: &[u8], bytes: &mut [u8]) -> io::Result<usize>
    ensures { Handed (read_of result) bytes.new }
{
    let path = str::from_utf8(name).map_err(|_| Error::new(
        ErrorKind::InvalidInput,
        "the name is not UTF-8",
    ))?;
    let mut file = fs::open(rt, path)?;
    read_all(&mut file, bytes)
}

// The file of that name. One that cannot be opened is told as one that cannot be read.
pub fn read_file<R: Files, E: Write>(
    rt: &R,
    errors: &mut E,
    name: &[u8],
    bytes: &mut [u8],
) -> Option<usize>
    ensures { Handed result bytes.new }
{
    let got = read_named(rt, name, bytes);
    told(errors, name, got)
}
