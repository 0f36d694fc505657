// Reads a sheet from standard input and prints its answer on each of the six channels. Where the input cannot be read to its end, there is no answer.
#![tactic(auto)]

use answer_words::checked::{FREE, LOCKED};
use answers::ChannelCheckAnswer;
use std::io;
use std::io::Write;

// One byte more than a text may have: a longer input is then seen to be too long.
const MOST: usize = model::TEXT_MOST + 1;

fn print_after_space<W: Write>(out: &mut W, number: u32) -> io::Result<()> {
    printing::print(out, b" ")?;
    printing::print_decimal(out, number)
}

fn print_word<W: Write>(out: &mut W, word: u32) -> io::Result<()> {
    match word {
        FREE => printing::print(out, b"free"),
        LOCKED => printing::print(out, b"locked"),
        _ => printing::print(out, b"refused"),
    }
}

// The word and the three numbers, and the line's end; whether the system took them.
fn print_answer<W: Write>(out: &mut W, a: ChannelCheckAnswer) -> io::Result<()> {
    print_word(out, a.word)?;
    for number in [a.one, a.two, a.three] {
        print_after_space(out, number)?;
    }
    printing::print(out, b"\n")
}

// A line: the code, the word, three numbers; whether the system took it.
fn print_line<W: Write>(out: &mut W, text: &[u8], code: u32) -> io::Result<()> {
    let mut scratch = [0u64; model::SCRATCH_LEAST];
    let mut trace = [0u8; model::TRACE_LEAST];
    let a = channel_check::channel_check(text, code, &mut scratch, &mut trace);
    printing::print_decimal(out, code)?;
    printing::print(out, b" ")?;
    print_answer(out, a)
}

// The names line, and a sheet's answer on each channel; whether the system took them. What follows a line that it did not take is not tried.
fn print_channels<W: Write>(out: &mut W, text: &[u8]) -> io::Result<()> {
    printing::print(out, b"channel answer one two three\n")?;
    for code in 0..model::CHANNELS as u32 {
        print_line(out, text, code)?;
    }
    Ok(())
}

fn main(rt: HostRuntime) {
    let mut text = [0u8; MOST];
    if let Some(n) = input::read_standard(&rt, &mut rt.stderr(), &mut text) {
        let printed = print_channels(&mut rt.stdout(), &text[..n]);
        printing::conclude(&mut rt.stderr(), printed);
    }
}
