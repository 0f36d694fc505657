// The loosest change that cures a sheet: a text, scratch words and output bytes in; the cured sheet as text out, or the refusal.
#![tactic(auto)]

ghost use Rattle.std.specs.Prelude.{◌≡◌, ◌*◌, ◌≤◌, length};
ghost use Rattle.model.specs.Limits.{messages_most, sheet_output_least};
ghost use Rattle.model.specs.Answer.{sheet_of};
ghost use Rattle.model.specs.Refusal.{and_then};
ghost use Rattle.model.specs.Cure.{cured_of, CureChecked};
ghost use Rattle.relation.specs.Width.{width};
ghost use Rattle.scenario.specs.Contract.{Fit};
ghost use Rattle.covers.specs.Covers.{CoverRows};
ghost use Rattle.cure.specs.Parts.{outcome_in, numbers_for, Decides};

use outcome::{Reason, Refusal};

// A sheet: what stands directly before each send, and its cure, unless that has too many rows. The length of the text.
fn decide(
    words: &mut [u64],
    boards: &[u8],
    count: usize,
    output: &mut [u8],
) -> Result<usize, Refusal>
    requires fit { Fit count boards.now words.old }
    requires sheet_output_least_in_bounds { sheet_output_least ≤ length output.old }
    ensures cover_rows { CoverRows count boards.now words.old words.new }
    ensures decides { Decides (outcome_in count boards.now words.new) output.old output.new result }
{
    covers::cover_rows(words, boards, count);
    let orders = order_count::count_orders(words, count);
    let rows = 1 + count + orders;
    if model::ROWS_MOST < rows {
        return Err(Reason::CuredRows.at(0));
    }
    Ok(cured_sheet::write_sheet(words, boards, count, output))
}

// A text: its scenario, in the words of the relation, and its cure.
fn judge(text: &[u8], words: &mut [u64], output: &mut [u8]) -> Result<usize, Refusal>
    requires words_len { length words.old ≡ 2 * messages_most * width }
    requires sheet_output_least_in_bounds { sheet_output_least ≤ length output.old }
    ensures { Decides (and_then (sheet_of text.now) cured_of) output.old output.new result }
{
    let mut boards = [0u8; model::EVENTS_MOST];
    // Not a `?`: the edit line_of_a_refusal_lost changes what is handed on here.
    match scenario::scenario_of(text, &mut boards, words) {
        Ok(count) => decide(words, &boards, count, output),
        Err(refusal) => Err(refusal),
    }
}

// The call, with the length of the text written: refusal 2 touches nothing; behind every other answer the scratch is cleared.
pub fn cure(text: &[u8], scratch: &mut [u64], output: &mut [u8]) -> Result<usize, Refusal>
    ensures { CureChecked text.now scratch.old scratch.new output.old output.new (numbers_for result) }
{
    lent::at_least(model::SCRATCH_LEAST, scratch.len())?;
    lent::at_least(model::SHEET_OUTPUT_LEAST, output.len())?;
    let end = model::SCRATCH_LEAST;
    let answer = judge(text, &mut scratch[..end], output);
    relation::clear(scratch, model::SCRATCH_LEAST);
    answer
}
