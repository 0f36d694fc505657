// The check of a file with choices between two subprograms: free if every choice list gives a free sheet, else the first locked list;
// a refusal in any list comes before any lock.
#![tactic(auto)]

ghost use Rattle.std.specs.Prelude.{◌≡◌, true, ◌*◌, ◌<◌, ◌≤◌, length};
ghost use Rattle.model.specs.Limits.{channels, messages_most, trace_least};
ghost use Rattle.model.specs.Place.{read_with};
ghost use Rattle.model.specs.Choice.{choice_answer_for, ChoiceChecked};
ghost use Rattle.relation.specs.Width.{width};
ghost use Rattle.choice_answer.specs.Bridge.{numbers_for, numbers_in};
ghost use Rattle.choice_verdict.specs.Judged.{Judged};

use choice_answer::{Choice, ChoiceCheckAnswer};
use outcome::Refusal;
use sheet::Rows;

// A text: it is read once, with A rows let through.
fn judge(text: &[u8], code: usize, words: &mut [u64], trace: &mut [u8]) -> Result<Choice, Refusal>
    requires words_len { length words.old ≡ 2 * messages_most * width }
    requires code_lt_channels { (code < channels) × (trace_least ≤ length trace.old) }
    ensures { Judged (choice_answer_for (read_with true text.now) code) trace.old trace.new result }
{
    let mut kind = [0u8; model::ROWS_MOST];
    let mut one = [0u16; model::ROWS_MOST];
    let mut two = [0u16; model::ROWS_MOST];
    let mut start = [0u16; model::SHEETS];
    let mut boards = [0u8; model::EVENTS_MOST];
    let count = sheet::read(text, true, &mut kind, &mut one, &mut two, &mut start, words)?;
    let rows = Rows {
        kind: &kind,
        one: &one,
        two: &two,
        count,
        start: &start,
    };
    choice_verdict::judge_lists(&rows, code, &mut boards, words, trace)
}

// The call: refusals 1 and 2 touch nothing; behind every other answer the scratch is cleared.
fn check(text: &[u8], code: u32, scratch: &mut [u64], trace: &mut [u8]) -> Result<Choice, Refusal>
    ensures { ChoiceChecked text.now code scratch.old scratch.new trace.old trace.new (numbers_for result) }
{
    let channel = lent::channel(code)?;
    lent::at_least(model::SCRATCH_LEAST, scratch.len())?;
    lent::at_least(model::TRACE_LEAST, trace.len())?;
    let end = model::SCRATCH_LEAST;
    let answer = judge(text, channel, &mut scratch[..end], trace);
    relation::clear(scratch, model::SCRATCH_LEAST);
    answer
}

// The call, with the answer's numbers for C.
pub fn choice_check(
    text: &[u8],
    code: u32,
    scratch: &mut [u64],
    trace: &mut [u8],
) -> ChoiceCheckAnswer
    ensures { ChoiceChecked text.now code scratch.old scratch.new trace.old trace.new (numbers_in result) }
{
    choice_answer::numbers(check(text, code, scratch, trace))
}
