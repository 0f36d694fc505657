// What the choice lists decide: free if every list's sheet is free, else the first locked list; a refusal in any list comes before any lock.
#![tactic(auto)]

ghost use Rattle.std.specs.Prelude.{Ok, ◌≡◌, ◌*◌, ◌<◌, ◌≤◌, length, take};
ghost use Rattle.model.specs.Limits.{channels, choices_most, messages_most, trace_least};
ghost use Rattle.model.specs.Answer.{verdict_of};
ghost use Rattle.model.specs.Choice.{lists_of, lock_in, judged_over};
ghost use Rattle.relation.specs.Width.{width};
ghost use Rattle.relation.specs.Scenario.{scenario_in};
ghost use Rattle.sheet.specs.Columns.{rows_in};
ghost use Rattle.levels.specs.Options.{options_of};
ghost use Rattle.scenario.specs.Contract.{Fit};
ghost use Rattle.expansion.specs.Lent.{AreLent};
ghost use Rattle.choice_lists.specs.Walked.{LockAt};
ghost use Rattle.choice_verdict.specs.Judged.{answer_on, Judged};

use choice_answer::Choice;
use outcome::Refusal;
use sheet::Rows;
use verdict::Verdict;

// What is decided of the scenario of a list of so many options, which is in boards and words.
fn decide_list(
    words: &[u64],
    boards: &[u8],
    count: usize,
    list: usize,
    met: usize,
    code: usize,
    trace: &mut [u8],
) -> Choice
    requires fit { Fit count boards.now words.now }
    requires met_le_choices_most { (met ≤ choices_most) × (code < channels) × (trace_least ≤ length trace.old) }
    ensures { Judged (answer_on (take met (options_of list)) (verdict_of (scenario_in count boards.now words.now) code)) trace.old trace.new (Ok result) }
{
    match verdict::decide(words, boards, count, code, trace) {
        Verdict::Free => Choice::Free,
        Verdict::Locked(message, event, steps) => Choice::Locked {
            message,
            event,
            steps,
            met,
            number: choice_answer::choices_of(list, met),
        },
    }
}

// The first locked list is walked once more, for its steps.
fn lock_list(
    rows: &Rows,
    list: usize,
    code: usize,
    boards: &mut [u8],
    words: &mut [u64],
    trace: &mut [u8],
) -> Result<Choice, Refusal>
    requires rows_read { AreLent rows.now }
    requires lock_at { LockAt (rows_in rows.now) code list }
    requires code_lt_channels { (code < channels) × (trace_least ≤ length trace.old) }
    requires boards_len { (length boards.old ≡ 2 * messages_most) × (length words.old ≡ 2 * messages_most * width) }
    ensures { Judged (lock_in (rows_in rows.now) code (lists_of (rows_in rows.now))) trace.old trace.new result }
{
    let counted = expansion::expand_list(rows, list, boards, words)?;
    Ok(decide_list(
        words,
        boards,
        counted.messages,
        list,
        counted.choices,
        code,
        trace,
    ))
}

// The rows: all lists are walked; the trace is written when none was refused, for the first locked one.
pub fn judge_lists(
    rows: &Rows,
    code: usize,
    boards: &mut [u8],
    words: &mut [u64],
    trace: &mut [u8],
) -> Result<Choice, Refusal>
    requires rows_read { AreLent rows.now }
    requires code_lt_channels { (code < channels) × (trace_least ≤ length trace.old) }
    requires boards_len { (length boards.old ≡ 2 * messages_most) × (length words.old ≡ 2 * messages_most * width) }
    ensures { Judged (judged_over (rows_in rows.now) code (lists_of (rows_in rows.now))) trace.old trace.new result }
{
    // Not a `?`: the edit rows_for_the_line changes what is handed on here.
    let walked = match choice_lists::walk_lists(rows, code, boards, words) {
        Ok(walked) => walked,
        Err(refusal) => return Err(refusal),
    };
    match walked.first {
        Some(first) => lock_list(rows, first, code, boards, words, trace),
        None => Ok(decide_list(
            words,
            boards,
            walked.messages,
            walked.list,
            walked.met,
            code,
            trace,
        )),
    }
}
