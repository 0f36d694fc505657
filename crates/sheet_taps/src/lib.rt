// Two taps on one machine: a text, scratch words and two lists of event numbers in; one course of events for both, a clash or a refusal out.
#![tactic(auto)]

ghost use Rattle.std.specs.Prelude.{◌≡◌, ◌*◌, ◌≤◌, length};
ghost use Rattle.model.specs.Limits.{messages_most, tap_numbers_least};
ghost use Rattle.model.specs.Refusal.{and_then};
ghost use Rattle.model.specs.Answer.{sheet_of};
ghost use Rattle.model.specs.Taps.{with_lists, TapsChecked};
ghost use Rattle.relation.specs.Width.{width};
ghost use Rattle.taps.specs.Parts.{numbers_for, Decides};

use outcome::Refusal;
use taps::Taps;

// A text: its scenario, in the words of the relation, and what is decided of it with the lists.
fn judge(
    text: &[u8],
    words: &mut [u64],
    first: &[u16],
    second: &[u16],
    output: &mut [u16],
) -> Result<Taps, Refusal>
    requires words_len { length words.old ≡ 2 * messages_most * width }
    requires tap_numbers_least_in_bounds { tap_numbers_least ≤ length output.old }
    ensures { Decides first.now second.now (and_then (sheet_of text.now) (with_lists first.now second.now)) output.old output.new result }
{
    let mut boards = [0u8; model::EVENTS_MOST];
    // Not a `?`: the edit line_of_a_refusal_lost changes what is handed on here.
    match scenario::scenario_of(text, &mut boards, words) {
        Ok(count) => taps::decide(words, count, first, second, output),
        Err(refusal) => Err(refusal),
    }
}

// Whether both lists fit one course of events: refusal 2 touches nothing; behind every other answer the scratch is cleared.
pub fn fit(
    text: &[u8],
    scratch: &mut [u64],
    first: &[u16],
    second: &[u16],
    output: &mut [u16],
) -> Result<Taps, Refusal>
    ensures { TapsChecked text.now scratch.old scratch.new first.now second.now output.old output.new (numbers_for result) }
{
    lent::at_least(model::SCRATCH_LEAST, scratch.len())?;
    lent::at_least(model::TAP_NUMBERS_LEAST, output.len())?;
    let end = model::SCRATCH_LEAST;
    let answer = judge(text, &mut scratch[..end], first, second, output);
    relation::clear(scratch, model::SCRATCH_LEAST);
    answer
}
