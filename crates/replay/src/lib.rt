// A trace from another tool: a sheet, a channel and a trace in, the verdict of the step rules out.
#![tactic(auto)]

ghost use Rattle.std.specs.Prelude.{◌≡◌, ◌*◌, ◌%◌, ◌<◌, ◌≤◌, length};
ghost use Rattle.model.specs.Limits.{channels, messages_most, trace_least};
ghost use Rattle.model.specs.Answer.{sheet_of};
ghost use Rattle.model.specs.Replay.{replay_numbers};
ghost use Rattle.model.specs.Waits.{TraceChecked};
ghost use Rattle.relation.specs.Width.{width};
ghost use Rattle.trace_answer.specs.Numbers.{numbers_in, verdict_in, waits_in};
ghost use Rattle.replay.specs.Bridge.{Judged};

use board::Scenario;
use outcome::{Reason, Refusal};
use trace_answer::TraceCheckAnswer;
use trace_steps::{Outcome, take_steps};

// A text's scenario, in the words of the relation, and the verdict on the trace.
fn judge(text: &[u8], code: usize, words: &mut [u64], trace: &[u8]) -> Result<Outcome, Refusal>
    requires words_len { length words.old ≡ 2 * messages_most * width }
    requires code_lt_channels { (code < channels) × (length trace.now % 2 ≡ 0) × (length trace.now ≤ trace_least) }
    ensures { Judged (sheet_of text.now) code trace.now result }
{
    let mut boards = [0u8; model::EVENTS_MOST];
    let count = scenario::scenario_of(text, &mut boards, words)?;
    let mut masks = [0u64; board::MASK_WORDS];
    board::board_masks(&boards, count, &mut masks);
    let c = channel_table::channel_of(code);
    let scenario = Scenario {
        words,
        masks: &masks,
        boards: &boards,
        count,
    };
    Ok(take_steps(&scenario, c, trace))
}

// Refusals 1 and 2 touch nothing; behind every other verdict the scratch is cleared.
fn judge_trace(
    text: &[u8],
    code: u32,
    scratch: &mut [u64],
    trace: &[u8],
) -> Result<Outcome, Refusal>
    ensures { TraceChecked text.now code scratch.old scratch.new trace.now (replay_numbers (verdict_in result)) (waits_in result) }
{
    let channel = lent::channel(code)?;
    // Not a `?`: the edit twelve_ahead_of_two changes what is handed on here.
    if let Err(refusal) = lent::at_least(model::SCRATCH_LEAST, scratch.len()) {
        return Err(refusal);
    }
    if !trace_answer::is_trace(trace.len()) {
        let all = model::SCRATCH_LEAST;
        relation::clear(scratch, all);
        return Err(Reason::Trace.at(0));
    }
    let end = model::SCRATCH_LEAST;
    let outcome = judge(text, channel, &mut scratch[..end], trace);
    relation::clear(scratch, model::SCRATCH_LEAST);
    outcome
}

// The call, with the numbers for C.
pub fn trace_check(text: &[u8], code: u32, scratch: &mut [u64], trace: &[u8]) -> TraceCheckAnswer
    ensures { TraceChecked text.now code scratch.old scratch.new trace.now (numbers_in result) result.waits }
{
    trace_answer::numbers(judge_trace(text, code, scratch, trace))
}
