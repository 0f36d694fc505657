// The check of a sheet with a table of permitted senders: a text, a channel code, scratch words, trace bytes and a table in; free, locked or
// refused out. 18 for the table comes directly behind 3, and 19 for a forbidden message once the walk has ended.
#![tactic(auto)]

ghost use Rattle.std.specs.Prelude.{◌*◌, ◌<◌, ◌≤◌, ◌≡◌, length, take};
ghost use Rattle.model.specs.Limits.{channels, messages_most, rules_most, trace_least};
ghost use Rattle.model.specs.Refusal.{and_then};
ghost use Rattle.model.specs.Senders.{sound_rules, PermittedCheck};
ghost use Rattle.relation.specs.Width.{width};
ghost use Rattle.coverage.specs.Rules.{rules_as};
ghost use Rattle.verdict.specs.Parts.{numbers_for, Decides};
ghost use Rattle.permitted_sheet.specs.Sheet.{sheet_by};
ghost use Rattle.permitted.specs.Parts.{sheet_with};

use coverage::Rule;
use model::RULES_MOST;
use outcome::{Reason, Refusal};
use senders::Judgement;
use verdict::Verdict;

// A text with the rules of a table: one that is not sound is refused, without a line.
fn judge_rules(
    text: &[u8],
    rules: [Rule; RULES_MOST],
    count: usize,
    code: usize,
    words: &mut [u64],
    trace: &mut [u8],
) -> Result<Verdict, Refusal>
    requires words_len { length words.old ≡ 2 * messages_most * width }
    requires code_lt_channels { (code < channels) × (trace_least ≤ length trace.old) }
    requires count_le_rules_most { count ≤ rules_most }
    ensures { Decides (and_then (sound_rules (rules_as (take count rules))) (sheet_by text.now)) code trace.old trace.new result }
{
    match senders::judge(rules, count) {
        Judgement::Sound => permitted_sheet::judge_sheet(text, rules, count, code, words, trace),
        Judgement::Gap(_) => Err(Reason::SenderTable.at(0)),
        Judgement::Clash(_, _, _) => Err(Reason::SenderTable.at(0)),
    }
}

// A text with a table: the text's length is judged ahead of the table, and the table ahead of the rest of the text.
fn judge(
    text: &[u8],
    table: &[u8],
    code: usize,
    words: &mut [u64],
    trace: &mut [u8],
) -> Result<Verdict, Refusal>
    requires words_len { length words.old ≡ 2 * messages_most * width }
    requires code_lt_channels { (code < channels) × (trace_least ≤ length trace.old) }
    ensures { Decides (sheet_with text.now table.now) code trace.old trace.new result }
{
    if text.is_empty() || model::TEXT_MOST < text.len() {
        return Err(Reason::Length.at(0));
    }
    // Not a `?`: the edit bad_line_of_the_table_lost changes what is handed on here.
    match sender_table::read_table(table) {
        Ok(read) => judge_rules(text, read.rules, read.count, code, words, trace),
        Err(refusal) => Err(refusal),
    }
}

// The call: refusals 1 and 2 touch nothing; behind every other answer the scratch is cleared.
pub fn check(
    text: &[u8],
    code: u32,
    scratch: &mut [u64],
    trace: &mut [u8],
    table: &[u8],
) -> Result<Verdict, Refusal>
    ensures { PermittedCheck text.now code scratch.old scratch.new trace.old trace.new table.now (numbers_for result) }
{
    let channel = lent::channel(code)?;
    lent::at_least(model::SCRATCH_LEAST, scratch.len())?;
    lent::at_least(model::TRACE_LEAST, trace.len())?;
    let end = model::SCRATCH_LEAST;
    let answer = judge(text, table, channel, &mut scratch[..end], trace);
    relation::clear(scratch, model::SCRATCH_LEAST);
    answer
}
