// A sheet by the rules of a sound table: the check, unless a message that the walk meets is forbidden, 19.
#![tactic(auto)]

ghost use Rattle.std.specs.Prelude.{◌*◌, ◌<◌, ◌≤◌, ◌≡◌, length, take};
ghost use Rattle.model.specs.Limits.{channels, messages_most, rules_most, trace_least};
ghost use Rattle.relation.specs.Width.{width};
ghost use Rattle.coverage.specs.Rules.{rules_as};
ghost use Rattle.verdict.specs.Parts.{Decides};
ghost use Rattle.permitted_sheet.specs.Sheet.{sheet_by};

use coverage::Rule;
use model::RULES_MOST;
use outcome::{Reason, Refusal};
use verdict::Verdict;

// A text with the rules of a sound table: the first message that is forbidden is refused, with its line, else the sheet is decided.
pub fn judge_sheet(
    text: &[u8],
    rules: [Rule; RULES_MOST],
    count: usize,
    code: usize,
    words: &mut [u64],
    trace: &mut [u8],
) -> Result<Verdict, Refusal>
    requires words_len { length words.old ≡ 2 * messages_most * width }
    requires code_lt_channels { (code < channels) × (trace_least ≤ length trace.old) }
    requires count_le_rules_most { count ≤ rules_most }
    ensures { Decides (sheet_by text.now (rules_as (take count rules))) code trace.old trace.new result }
{
    let mut boards = [0u8; model::EVENTS_MOST];
    // Not a `?`: the edit forbidden_ahead_of_10 changes what is handed on here.
    let messages = match scenario::scenario_of(text, &mut boards, words) {
        Ok(messages) => messages,
        Err(refusal) => return Err(refusal),
    };
    let permitted = receivers::permitted_by(rules, count);
    if let Some(m) = receivers::first_forbidden(permitted, &boards, messages) {
        let line = message_lines::line_of(text, m, words);
        return Err(Reason::Forbidden.at(line));
    }
    Ok(verdict::decide(words, &boards, messages, code, trace))
}
