// All races of a sheet on a channel: a text, a channel code, scratch words and an output of any length in; how many there are, or a refusal, out.
#![tactic(auto)]

ghost use Rattle.std.specs.Prelude.{◌≡◌, ◌*◌, ◌<◌, length};
ghost use Rattle.model.specs.Limits.{channels, messages_most};
ghost use Rattle.model.specs.Answer.{sheet_of};
ghost use Rattle.model.specs.Holdings.{RacesTold};
ghost use Rattle.relation.specs.Width.{width};
ghost use Rattle.sheet_races.specs.Numbers.{numbers_in, numbers_for, Small, Answers};

use answer_words::listed::{LISTED, REFUSED};
use outcome::Refusal;
use race_list::Told;

// word 0 listed (one is how many races there are, two how many of them stand in the output), 1 refused (one is the number, two the line).
#[repr(C)]
#[derive(Clone, Copy)]
pub struct SheetRacesAnswer {
    pub word: u32,
    pub one: u32,
    pub two: u32,
}

// The answer's numbers: how many races there are and how many of them are listed, or the refusal. Each fits 32 bits.
fn told(answer: Result<Told, Refusal>) -> SheetRacesAnswer
    requires { Small answer }
    ensures { numbers_in result ≡ numbers_for answer }
{
    match answer {
        Ok(told) => SheetRacesAnswer {
            word: LISTED,
            one: told.all as u32,
            two: told.listed as u32,
        },
        Err(refusal) => SheetRacesAnswer {
            word: REFUSED,
            one: refusal.reason.number(),
            two: refusal.line as u32,
        },
    }
}

// A text: its scenario, in the words of the relation, and its races.
fn judge(text: &[u8], code: usize, words: &mut [u64], output: &mut [u16]) -> Result<Told, Refusal>
    requires words_len { length words.old ≡ 2 * messages_most * width }
    requires code_lt_channels { code < channels }
    ensures answers { Answers (sheet_of text.now) code output.old output.new (numbers_for result) }
    ensures small { Small result }
{
    let mut boards = [0u8; model::EVENTS_MOST];
    let count = scenario::scenario_of(text, &mut boards, words)?;
    let rule = race::rule_of(code);
    Ok(race_list::list_races(words, &boards, count, rule, output))
}

// The call: refusals 1 and 2 touch nothing; after every other answer the scratch is cleared.
fn check(text: &[u8], code: u32, scratch: &mut [u64], output: &mut [u16]) -> Result<Told, Refusal>
    ensures races_told { RacesTold text.now code scratch.old scratch.new output.old output.new (numbers_for result) }
    ensures small { Small result }
{
    // Not a `?`: the edit refusal_out_of_order changes what is handed on here.
    let channel = match lent::channel(code) {
        Ok(channel) => channel,
        Err(refusal) => return Err(refusal),
    };
    lent::at_least(model::SCRATCH_LEAST, scratch.len())?;
    let end = model::SCRATCH_LEAST;
    let answer = judge(text, channel, &mut scratch[..end], output);
    relation::clear(scratch, model::SCRATCH_LEAST);
    answer
}

// All races of the code's kind, with the answer's numbers for C.
pub fn sheet_races(
    text: &[u8],
    code: u32,
    scratch: &mut [u64],
    output: &mut [u16],
) -> SheetRacesAnswer
    ensures { RacesTold text.now code scratch.old scratch.new output.old output.new (numbers_in result) }
{
    told(check(text, code, scratch, output))
}
