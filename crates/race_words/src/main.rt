// Reads a sheet from standard input and prints its race words: a line for each channel code and message, with the words of the events
// that race with the message under the code's rule.
#![tactic(auto)]

ghost use Rattle.std.specs.Prelude.{◌<◌};
ghost use Rattle.model.specs.Limits.{channels};
ghost use Rattle.scenario.specs.Contract.{Fit};

use board::Scenario;
use std::io;
use std::io::Write;

// One byte more than a text may have: a longer input is then seen to be too long.
const MOST: usize = model::TEXT_MOST + 1;

fn print_names<W: Write>(out: &mut W, code: usize, e: usize) -> io::Result<()> {
    printing::print_wide(out, code as u64)?;
    printing::print(out, b" ")?;
    printing::print_wide(out, e as u64)
}

fn print_word<W: Write>(out: &mut W, word: u64) -> io::Result<()> {
    printing::print(out, b" ")?;
    printing::print_wide(out, word)
}

// A line: the code, the message, and its words; whether the system took it.
fn print_line<W: Write>(out: &mut W, scenario: &Scenario, code: usize, e: usize) -> io::Result<()>
    requires { (code < channels) × (e < scenario.now.count) }
{
    let rule = race::rule_of(code);
    print_names(out, code, e)?;
    for w in 0..relation::WIDTH {
        print_word(out, race::race_word(scenario, rule, e, w))?;
    }
    printing::print(out, b"\n")
}

// The lines of a code.
fn print_code<W: Write>(out: &mut W, scenario: &Scenario, code: usize) -> io::Result<()>
    requires { code < channels }
{
    for e in 0..scenario.count {
        print_line(out, scenario, code, e)?;
    }
    Ok(())
}

fn print_all<W: Write>(out: &mut W, words: &[u64], boards: &[u8], count: usize) -> io::Result<()>
    requires { Fit count boards.now words.now }
{
    let mut masks = [0u64; board::MASK_WORDS];
    board::board_masks(boards, count, &mut masks);
    let scenario = Scenario {
        words,
        masks: &masks,
        boards,
        count,
    };
    for code in 0..model::CHANNELS {
        print_code(out, &scenario, code)?;
    }
    Ok(())
}

// The words of the sheet in a text, or that it is refused.
fn print_words<W: Write>(out: &mut W, text: &[u8]) -> io::Result<()> {
    let mut boards = [0u8; model::EVENTS_MOST];
    let mut words = [0u64; model::SCRATCH_LEAST];
    match scenario::scenario_of(text, &mut boards, &mut words) {
        Ok(count) => print_all(out, &words, &boards, count),
        Err(_) => printing::print(out, b"refused\n"),
    }
}

fn main(rt: HostRuntime) {
    let mut text = [0u8; MOST];
    if let Some(n) = input::read_standard(&rt, &mut rt.stderr(), &mut text) {
        let printed = print_words(&mut rt.stdout(), &text[..n]);
        printing::conclude(&mut rt.stderr(), printed);
    }
}
