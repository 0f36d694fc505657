// The rows of a sheet walked twice: one round is judged after the first walk and two after the second, whose rows stand in the same words.
#![tactic(auto)]

ghost use Rattle.std.specs.Prelude.{Ok, ◌≡◌, ◌*◌, ◌<◌, ◌≤◌, length};
ghost use Rattle.model.specs.Limits.{channels, messages_most, trace_least};
ghost use Rattle.model.specs.Answer.{verdict_of};
ghost use Rattle.model.specs.Choice.{Plain};
ghost use Rattle.model.specs.Rounds.{rounds_answer};
ghost use Rattle.relation.specs.Width.{width};
ghost use Rattle.relation.specs.Scenario.{scenario_in};
ghost use Rattle.sheet.specs.Columns.{rows_in};
ghost use Rattle.expansion.specs.Lent.{AreLent};
ghost use Rattle.scenario.specs.Contract.{Fit};
ghost use Rattle.second_walk.specs.Walks.{rows_repeatable, OneLocks, Walks};
ghost use Rattle.second_walk.specs.Judged.{times_verdict, Judges};

use blocks::PAST;
use expansion::{walk_on, walk_once};
use outcome::Refusal;
use sheet::Rows;
use verdict::Verdict;

// Free on every number of rounds; or locked, with the race's message and event, the number of steps in the trace and the fewest rounds
// that lock. An enum and no option: free is an answer of its own.
#[derive(Clone, Copy)]
pub enum Rounds {
    Free,
    Locked {
        message: usize,
        event: usize,
        steps: usize,
        rounds: usize,
    },
}

// What two walks come to: one round is locked; or it is free, and so many messages of two rounds are in boards and words. An enum and no
// option: both are findings.
#[derive(Clone, Copy)]
pub enum Twice {
    OneLocked,
    OneFree(usize),
}

// The list of options for rows that have no A row.
const PLAIN: usize = 0;

const ONE_ROUND: usize = 1;

const TWO_ROUNDS: usize = 2;

// The rows walked twice, the second walk going on where the first ended. One round's race is looked for between the walks; that it is
// locked is said only where no refusal comes after it.
fn walk_twice(
    rows: &Rows,
    code: usize,
    boards: &mut [u8],
    words: &mut [u64],
) -> Result<Twice, Refusal>
    requires rows_read { AreLent rows.now }
    requires plain { Plain (rows_in rows.now) }
    requires code_lt_channels { code < channels }
    requires boards_len { (length boards.old ≡ 2 * messages_most) × (length words.old ≡ 2 * messages_most * width) }
    ensures { Walks (rows_repeatable (rows_in rows.now)) code boards.new words.new result }
{
    let mut past = [0u64; PAST];
    let rule = race::rule_of(code);
    let once = walk_once(rows, PLAIN, boards, words, &mut past)?;
    let messages = once.count;
    let lowest = lowest_race::lowest_race(words, boards, messages, rule);
    let twice = walk_on(rows, PLAIN, boards, words, &mut past, once)?;
    match lowest {
        None => Ok(Twice::OneFree(twice.count)),
        Some(_) => Ok(Twice::OneLocked),
    }
}

// What is decided of so many rounds, whose scenario is in boards and words.
fn decide_rounds(
    words: &[u64],
    boards: &[u8],
    count: usize,
    code: usize,
    rounds: usize,
    trace: &mut [u8],
) -> Rounds
    requires fit { Fit count boards.now words.now }
    requires code_lt_channels { (code < channels) × (trace_least ≤ length trace.old) }
    ensures { Judges (times_verdict rounds (verdict_of (scenario_in count boards.now words.now) code)) trace.old trace.new (Ok result) }
{
    match verdict::decide(words, boards, count, code, trace) {
        Verdict::Free => Rounds::Free,
        Verdict::Locked(message, event, steps) => Rounds::Locked {
            message,
            event,
            steps,
            rounds,
        },
    }
}

// One round is locked: it is walked once more, for its own schedule.
fn lock_one(
    rows: &Rows,
    code: usize,
    boards: &mut [u8],
    words: &mut [u64],
    trace: &mut [u8],
) -> Result<Rounds, Refusal>
    requires rows_read { AreLent rows.now }
    requires plain { Plain (rows_in rows.now) }
    requires one_locks { OneLocks (rows_repeatable (rows_in rows.now)) code }
    requires code_lt_channels { (code < channels) × (trace_least ≤ length trace.old) }
    requires boards_len { (length boards.old ≡ 2 * messages_most) × (length words.old ≡ 2 * messages_most * width) }
    ensures { Judges (rounds_answer (rows_repeatable (rows_in rows.now)) code) trace.old trace.new result }
{
    let messages = expansion::expand(rows, boards, words)?;
    Ok(decide_rounds(words, boards, messages, code, ONE_ROUND, trace))
}

// The rows: refused, locked on the first round, or what two rounds decide.
pub fn judge_rows(
    rows: &Rows,
    code: usize,
    boards: &mut [u8],
    words: &mut [u64],
    trace: &mut [u8],
) -> Result<Rounds, Refusal>
    requires rows_read { AreLent rows.now }
    requires plain { Plain (rows_in rows.now) }
    requires code_lt_channels { (code < channels) × (trace_least ≤ length trace.old) }
    requires boards_len { (length boards.old ≡ 2 * messages_most) × (length words.old ≡ 2 * messages_most * width) }
    ensures { Judges (rounds_answer (rows_repeatable (rows_in rows.now)) code) trace.old trace.new result }
{
    let walks = walk_twice(rows, code, boards, words)?;
    match walks {
        Twice::OneLocked => lock_one(rows, code, boards, words, trace),
        Twice::OneFree(messages) => Ok(decide_rounds(
            words, boards, messages, code, TWO_ROUNDS, trace,
        )),
    }
}
