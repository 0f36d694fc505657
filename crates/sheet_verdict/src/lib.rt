// The check of a sheet on a channel: a text, a channel code, scratch words and trace bytes in; free, locked or refused out.
#![tactic(auto)]

ghost use Rattle.std.specs.Prelude.{◌≡◌, ◌*◌, ◌<◌, ◌≤◌, length};
ghost use Rattle.model.specs.Limits.{channels, messages_most, trace_least};
ghost use Rattle.model.specs.Answer.{sheet_of};
ghost use Rattle.model.specs.Verdict.{Checked};
ghost use Rattle.relation.specs.Width.{width};
ghost use Rattle.verdict.specs.Parts.{numbers_for, Decides};

use outcome::Refusal;
use verdict::Verdict;

// A text: its scenario, in the words of the relation, and what is decided of it.
fn judge(text: &[u8], code: usize, words: &mut [u64], trace: &mut [u8]) -> Result<Verdict, Refusal>
    requires words_len { length words.old ≡ 2 * messages_most * width }
    requires code_lt_channels { (code < channels) × (trace_least ≤ length trace.old) }
    ensures { Decides (sheet_of text.now) code trace.old trace.new result }
{
    let mut boards = [0u8; model::EVENTS_MOST];
    let count = scenario::scenario_of(text, &mut boards, words)?;
    Ok(verdict::decide(words, &boards, count, code, trace))
}

// The check: refusals 1 and 2 touch nothing; behind every other answer the scratch is cleared.
pub fn check(
    text: &[u8],
    code: u32,
    scratch: &mut [u64],
    trace: &mut [u8],
) -> Result<Verdict, Refusal>
    ensures { Checked text.now code scratch.old scratch.new trace.old trace.new (numbers_for result) }
{
    // Not a `?`: the edit refusal_out_of_order changes what is handed on here.
    let channel = match lent::channel(code) {
        Ok(channel) => channel,
        Err(refusal) => return Err(refusal),
    };
    lent::at_least(model::SCRATCH_LEAST, scratch.len())?;
    lent::at_least(model::TRACE_LEAST, trace.len())?;
    let end = model::SCRATCH_LEAST;
    let answer = judge(text, channel, &mut scratch[..end], trace);
    relation::clear(scratch, model::SCRATCH_LEAST);
    answer
}
