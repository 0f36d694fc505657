// The check of a sheet that is repeated: a text, a channel code, scratch words and trace bytes in; free on every number of rounds, locked on
// the first or the second, or refused, out.
#![tactic(auto)]

ghost use Rattle.std.specs.Prelude.{◌≡◌, ◌*◌, ◌<◌, ◌≤◌, length};
ghost use Rattle.model.specs.Limits.{channels, messages_most, trace_least};
ghost use Rattle.model.specs.Rounds.{rounds_answer, RoundsChecked};
ghost use Rattle.relation.specs.Width.{width};
ghost use Rattle.second_walk.specs.Judged.{numbers_for, rounds_for, Judges};
ghost use Rattle.rounds.specs.Numbers.{numbers_in, Small, Told, text_repeatable};

use answer_words::checked::{FREE, LOCKED, REFUSED};
use outcome::Refusal;
use second_walk::Rounds;
use sheet::Rows;

// word 0 free, 1 locked (one is the message, two the event, three the number of steps, rounds the fewest that lock), 2 refused (one is the
// number, two the line).
#[repr(C)]
#[derive(Clone, Copy)]
pub struct RoundsCheckAnswer {
    pub word: u32,
    pub one: u32,
    pub two: u32,
    pub three: u32,
    pub rounds: u32,
}

// The answer's numbers. Each fits 32 bits.
fn told(answer: Result<Rounds, Refusal>) -> RoundsCheckAnswer
    requires { Small (numbers_for answer) (rounds_for answer) }
    ensures { Told answer result }
{
    match answer {
        Ok(Rounds::Free) => RoundsCheckAnswer {
            word: FREE,
            one: 0,
            two: 0,
            three: 0,
            rounds: 0,
        },
        Ok(
            Rounds::Locked {
                message,
                event,
                steps,
                rounds,
            },
        ) => RoundsCheckAnswer {
            word: LOCKED,
            one: message as u32,
            two: event as u32,
            three: steps as u32,
            rounds: rounds as u32,
        },
        Err(refusal) => RoundsCheckAnswer {
            word: REFUSED,
            one: refusal.reason.number(),
            two: refusal.line as u32,
            three: 0,
            rounds: 0,
        },
    }
}

// A text: it is read once, and its rows are walked twice.
fn judge(text: &[u8], code: usize, words: &mut [u64], trace: &mut [u8]) -> Result<Rounds, Refusal>
    requires words_len { length words.old ≡ 2 * messages_most * width }
    requires code_lt_channels { (code < channels) × (trace_least ≤ length trace.old) }
    ensures { Judges (rounds_answer (text_repeatable text.now) code) trace.old trace.new result }
{
    let mut kind = [0u8; model::ROWS_MOST];
    let mut one = [0u16; model::ROWS_MOST];
    let mut two = [0u16; model::ROWS_MOST];
    let mut start = [0u16; model::SHEETS];
    let mut boards = [0u8; model::EVENTS_MOST];
    let count = sheet::read(
        text, false, &mut kind, &mut one, &mut two, &mut start, words,
    )?;
    let rows = Rows {
        kind: &kind,
        one: &one,
        two: &two,
        count,
        start: &start,
    };
    second_walk::judge_rows(&rows, code, &mut boards, words, trace)
}

// The call: refusals 1 and 2 touch nothing; after every other answer the scratch is cleared.
fn check(text: &[u8], code: u32, scratch: &mut [u64], trace: &mut [u8]) -> Result<Rounds, Refusal>
    ensures { RoundsChecked text.now code scratch.old scratch.new trace.old trace.new (rounds_for result) (numbers_for result) }
{
    let channel = lent::channel(code)?;
    lent::at_least(model::SCRATCH_LEAST, scratch.len())?;
    lent::at_least(model::TRACE_LEAST, trace.len())?;
    let end = model::SCRATCH_LEAST;
    let answer = judge(text, channel, &mut scratch[..end], trace);
    relation::clear(scratch, model::SCRATCH_LEAST);
    answer
}

// The call, with the answer's numbers for C.
pub fn rounds_check(
    text: &[u8],
    code: u32,
    scratch: &mut [u64],
    trace: &mut [u8],
) -> RoundsCheckAnswer
    ensures { RoundsChecked text.now code scratch.old scratch.new trace.old trace.new result.rounds (numbers_in result) }
{
    told(check(text, code, scratch, trace))
}
