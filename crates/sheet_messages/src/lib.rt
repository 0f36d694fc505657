// The messages of a sheet: a text and scratch words in; the line, the sender and the receiver of each message of its walk, or a refusal,
// out.
#![tactic(auto)]

ghost use Rattle.std.specs.Prelude.{◌≡◌, ◌+◌, ◌*◌, ◌<◌, ◌≤◌, length, get_or, set};
ghost use Rattle.model.specs.Limits.{messages_most, message_numbers_least};
ghost use Rattle.model.specs.Holdings.{MessagesListed};
ghost use Rattle.relation.specs.Width.{width};
ghost use Rattle.sheet_messages.specs.Listing.{numbers_in, numbers_for, Small, Told, Lists};

use answer_words::listed::{LISTED, REFUSED};
use model::{EVENTS_MOST, MESSAGES_MOST};
use outcome::Refusal;

// The output of a sheet's messages: a line and two boards for each.
const NUMBERS_LEAST: usize = 3 * MESSAGES_MOST;

// word 0 listed (one is how many messages the walk meets), 1 refused (one is the number, two the line).
#[repr(C)]
#[derive(Clone, Copy)]
pub struct SheetMessagesAnswer {
    pub word: u32,
    pub one: u32,
    pub two: u32,
}

// The answer's numbers: so many messages are listed, or the refusal. Each fits 32 bits.
fn told(answer: Result<usize, Refusal>) -> SheetMessagesAnswer
    requires { Small answer }
    ensures { numbers_in result ≡ numbers_for answer }
{
    match answer {
        Ok(count) => SheetMessagesAnswer {
            word: LISTED,
            one: count as u32,
            two: 0,
        },
        Err(refusal) => SheetMessagesAnswer {
            word: REFUSED,
            one: refusal.reason.number(),
            two: refusal.line as u32,
        },
    }
}

// The three numbers of message m.
fn put(lines: &[u16; MESSAGES_MOST], boards: &[u8; EVENTS_MOST], m: usize, output: &mut [u16])
    requires m_lt_messages_most { m < messages_most }
    requires m_in_bounds { 3 * m + 2 < length output.old }
    ensures { output.new ≡ set (set (set output.old (3 * m) (get_or lines.now m 0)) (3 * m + 1) (get_or boards.now (2 * m) 0)) (3 * m + 2) (get_or boards.now (2 * m + 1) 0) }
{
    output[3 * m] = lines[m];
    output[3 * m + 1] = u16::from(boards[2 * m]);
    output[3 * m + 2] = u16::from(boards[2 * m + 1]);
}

// The messages of a scenario, three numbers each: the line of the M row, the sender, the receiver.
fn tell(lines: &[u16; MESSAGES_MOST], boards: &[u8; EVENTS_MOST], count: usize, output: &mut [u16])
    requires count_le_messages_most { count ≤ messages_most }
    requires message_numbers_least_in_bounds { message_numbers_least ≤ length output.old }
    ensures { Told lines.now boards.now output.old count output.new }
{
    for m in 0..count {
        put(lines, boards, m, output);
    }
}

// A text: its scenario, whose boards are kept, then the lines of its messages, for which the words are used again.
fn list(text: &[u8], words: &mut [u64], output: &mut [u16]) -> Result<usize, Refusal>
    requires words_len { length words.old ≡ 2 * messages_most * width }
    requires message_numbers_least_in_bounds { message_numbers_least ≤ length output.old }
    ensures lists { Lists text.now output.old output.new (numbers_for result) }
    ensures small { Small result }
{
    let mut boards = [0u8; EVENTS_MOST];
    let count = scenario::scenario_of(text, &mut boards, words)?;
    let mut lines = [0u16; MESSAGES_MOST];
    message_lines::lines_of(text, count, words, &mut lines);
    tell(&lines, &boards, count, output);
    Ok(count)
}

// The call: refusal 2 touches nothing; after every other answer the scratch is cleared.
fn check(text: &[u8], scratch: &mut [u64], output: &mut [u16]) -> Result<usize, Refusal>
    ensures listed { MessagesListed text.now scratch.old scratch.new output.old output.new (numbers_for result) }
    ensures small { Small result }
{
    lent::at_least(model::SCRATCH_LEAST, scratch.len())?;
    lent::at_least(NUMBERS_LEAST, output.len())?;
    let end = model::SCRATCH_LEAST;
    let answer = list(text, &mut scratch[..end], output);
    relation::clear(scratch, model::SCRATCH_LEAST);
    answer
}

// The messages of a sheet, with the answer's numbers for C.
pub fn sheet_messages(text: &[u8], scratch: &mut [u64], output: &mut [u16]) -> SheetMessagesAnswer
    ensures { MessagesListed text.now scratch.old scratch.new output.old output.new (numbers_in result) }
{
    told(check(text, scratch, output))
}
