// Runs the paper's sheets that are not in the proved table, 9 and 10, and sheets for each refusal, each limit from both sides, on all six
// channels, and compares: a line of the list has a file's name and what must come, channel by channel, the last for all channels that are
// left. Then the limits of what is lent. A line is printed for each, which says whether it came.
#![tactic(auto)]

ghost use Rattle.std.specs.Prelude.{◌≤◌, length};

use answer_words::checked::{FREE, LOCKED, REFUSED};
use answers::ChannelCheckAnswer;
use std::io;
use std::io::Write;

// Room for the list.
const LIST_MOST: usize = 8192;

// Room for a text that is too long.
const ROOM: usize = model::TEXT_MOST + 256;

// What must come: the word, where the line names one, and the three numbers.
#[derive(Clone, Copy)]
struct Expected {
    word: Option<u32>,
    one: u32,
    two: u32,
    three: u32,
}

// The end of the field that starts there: its space, or the end of the line.
fn field_end(line: &[u8], at: usize) -> usize
    requires { at ≤ length line.now }
    ensures from { at ≤ result }
    ensures within { result ≤ length line.now }
{
    match line[at..].iter().position(|b| *b == b' ') {
        Some(ahead) => at + ahead,
        None => line.len(),
    }
}

// The place behind the field that starts there and behind its space.
fn behind_field(line: &[u8], at: usize) -> usize
    requires { at ≤ length line.now }
    ensures { result ≤ length line.now }
{
    (field_end(line, at) + 1).min(line.len())
}

// The number of the word that starts there, if one does.
fn word_at(line: &[u8], at: usize) -> Option<u32> {
    match line.get(at) {
        Some(b'f') => Some(FREE),
        Some(b'l') => Some(LOCKED),
        Some(b'r') => Some(REFUSED),
        _ => None,
    }
}

// The number that starts there. None in the list has more than four digits.
fn number_at(line: &[u8], at: usize) -> u32 {
    let mut value = 0;
    for digit in line.iter().skip(at) {
        if !digit.is_ascii_digit() || 9999 < value {
            return value;
        }
        value = value * 10 + u32::from(*digit - b'0');
    }
    value
}

// What the four fields from there on say.
fn expected_at(line: &[u8], at: usize) -> Expected
    requires { at ≤ length line.now }
{
    let first = behind_field(line, at);
    let second = behind_field(line, first);
    let third = behind_field(line, second);
    Expected {
        word: word_at(line, at),
        one: number_at(line, first),
        two: number_at(line, second),
        three: number_at(line, third),
    }
}

// The place behind four fields; the same place where the line has no more.
fn behind_answer(line: &[u8], at: usize) -> usize
    requires { at ≤ length line.now }
    ensures { result ≤ length line.now }
{
    let first = behind_field(line, at);
    let second = behind_field(line, first);
    let third = behind_field(line, second);
    let next = behind_field(line, third);
    if next < line.len() { next } else { at }
}

fn is_expected(a: ChannelCheckAnswer, must: Expected) -> bool {
    Some(a.word) == must.word && a.one == must.one && a.two == must.two && a.three == must.three
}

// Whether it came, behind what it is. Nothing where that could not be printed, which is then told.
fn tell(rt: &HostRuntime, what: &[u8], came: bool) -> Option<()> {
    let printed = print_came(&mut rt.stdout(), what, came);
    printing::conclude(&mut rt.stderr(), printed);
    printed.ok()
}

fn print_came<W: Write>(out: &mut W, what: &[u8], came: bool) -> io::Result<()> {
    printing::print(out, what)?;
    print_verdict(out, came)
}

fn print_verdict<W: Write>(out: &mut W, came: bool) -> io::Result<()> {
    if came {
        printing::print(out, b": came\n")
    } else {
        printing::print(out, b": DID NOT COME\n")
    }
}

// The answer to a text on a channel.
fn answer_on(text: &[u8], code: u32) -> ChannelCheckAnswer {
    let mut scratch = [0u64; model::SCRATCH_LEAST];
    let mut trace = [0u8; model::TRACE_LEAST];
    channel_check::channel_check(text, code, &mut scratch, &mut trace)
}

// What must come of the text, by the fields of the line from `from` on, came on every channel.
fn came_of(text: &[u8], line: &[u8], from: usize) -> bool
    requires { from ≤ length line.now }
{
    let mut at = from;
    for code in 0..model::CHANNELS as u32 {
        if !is_expected(answer_on(text, code), expected_at(line, at)) {
            return false;
        }
        at = behind_answer(line, at);
    }
    true
}

// A line of the list: a file's name, and what must come. Nothing where the file cannot be read, or the line not be printed.
fn show(rt: &HostRuntime, line: &[u8]) -> Option<()> {
    let mut text = [0u8; ROOM];
    let end = field_end(line, 0);
    let from = behind_field(line, 0);
    let n = input::read_file(rt, &mut rt.stderr(), &line[..end], &mut text)?;
    tell(rt, line, came_of(&text[..n], line, from))
}

// Each line of the list, up to one that fails.
fn show_all(rt: &HostRuntime, list: &[u8]) -> Option<()> {
    for line in list.split_inclusive(|b| *b == b'\n') {
        show(rt, line.strip_suffix(b"\n").unwrap_or(line))?;
    }
    Some(())
}

// A sheet without messages on a channel, with these buffers: free, or refused with so much.
fn show_lent(
    rt: &HostRuntime,
    what: &[u8],
    code: u32,
    scratch: &mut [u64],
    trace: &mut [u8],
    number: u32,
) -> Option<()> {
    let a = channel_check::channel_check(b"kind one two\nS 0 0\n", code, scratch, trace);
    let must = Expected {
        word: Some(if number == 0 { FREE } else { REFUSED }),
        one: number,
        two: 0,
        three: 0,
    };
    tell(rt, what, is_expected(a, must))
}

// The same with the least buffers that are enough.
fn show_enough(rt: &HostRuntime, what: &[u8], code: u32, number: u32) -> Option<()> {
    let mut scratch = [0u64; model::SCRATCH_LEAST];
    let mut trace = [0u8; model::TRACE_LEAST];
    show_lent(rt, what, code, &mut scratch, &mut trace, number)
}

// A word of scratch too few; and a byte of trace.
fn show_short_scratch(rt: &HostRuntime) -> Option<()> {
    let mut scratch = [0u64; model::SCRATCH_LEAST - 1];
    let mut trace = [0u8; model::TRACE_LEAST];
    show_lent(rt, b"4095 words: refused 2", 0, &mut scratch, &mut trace, 2)
}

fn show_short_trace(rt: &HostRuntime) -> Option<()> {
    let mut scratch = [0u64; model::SCRATCH_LEAST];
    let mut trace = [0u8; model::TRACE_LEAST - 1];
    show_lent(rt, b"1535 bytes: refused 2", 0, &mut scratch, &mut trace, 2)
}

// The limits of what is lent.
fn show_limits(rt: &HostRuntime) -> Option<()> {
    show_enough(rt, b"channel 5: free", 5, 0)?;
    show_enough(rt, b"channel 6: refused 1", 6, 1)?;
    show_enough(rt, b"4096 words and 1536 bytes: free", 0, 0)?;
    show_short_scratch(rt)?;
    show_short_trace(rt)
}

// The list, and behind it the limits.
fn show_list(rt: &HostRuntime) -> Option<()> {
    let mut list = [0u8; LIST_MOST];
    let n = input::read_file(rt, &mut rt.stderr(), b"list", &mut list)?;
    show_all(rt, &list[..n])?;
    show_limits(rt)
}

fn main(rt: HostRuntime) {
    // What failed was told.
    let _ = show_list(&rt);
}
