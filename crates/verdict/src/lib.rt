// What is decided of an accepted sheet on a channel: free, or locked, with the schedule for the race's message in the trace.
#![tactic(auto)]

ghost use Rattle.std.specs.Prelude.{Ok, ◌<◌, ◌≤◌, length};
ghost use Rattle.model.specs.Limits.{channels, trace_least};
ghost use Rattle.model.specs.Refusal.{ok};
ghost use Rattle.model.specs.Channel.{channel_of};
ghost use Rattle.relation.specs.Scenario.{scenario_in};
ghost use Rattle.scenario.specs.Contract.{Fit};
ghost use Rattle.schedule.specs.Schedule.{Scheduled};
ghost use Rattle.verdict.specs.Parts.{Decides, IsRace};

use board::Scenario;

// Free; or locked, with the race's message and event and the number of steps in the trace. An enum and no option: free is
// an answer of its own.
#[derive(Clone, Copy)]
pub enum Verdict {
    Free,
    Locked(usize, usize, usize),
}

// The schedule for message e on a channel goes into the trace: the number of its steps.
pub fn withhold(
    words: &[u64],
    boards: &[u8],
    count: usize,
    code: usize,
    e: usize,
    trace: &mut [u8],
) -> usize
    requires fit { Fit count boards.now words.now }
    requires code_lt_channels { (code < channels) × (trace_least ≤ length trace.old) }
    requires e_lt_count { e < count }
    ensures { Scheduled (scenario_in count boards.now words.now) (channel_of code) e trace.old trace.new result }
{
    let mut masks = [0u64; board::MASK_WORDS];
    board::board_masks(boards, count, &mut masks);
    let c = channel_table::channel_of(code);
    let scenario = Scenario {
        words,
        masks: &masks,
        boards,
        count,
    };
    schedule::schedule(&scenario, c, e, trace)
}

// The race (e, x) is named: the schedule for e goes into the trace.
fn lock(
    words: &[u64],
    boards: &[u8],
    count: usize,
    code: usize,
    e: usize,
    x: usize,
    trace: &mut [u8],
) -> Verdict
    requires fit { Fit count boards.now words.now }
    requires code_lt_channels { (code < channels) × (trace_least ≤ length trace.old) }
    requires race { IsRace (scenario_in count boards.now words.now) code e x }
    ensures { Decides (ok (scenario_in count boards.now words.now)) code trace.old trace.new (Ok result) }
{
    let steps = withhold(words, boards, count, code, e, trace);
    Verdict::Locked(e, x, steps)
}

// An accepted sheet is locked exactly if its causal order has a race of the channel's kind.
pub fn decide(words: &[u64], boards: &[u8], count: usize, code: usize, trace: &mut [u8]) -> Verdict
    requires fit { Fit count boards.now words.now }
    requires code_lt_channels { (code < channels) × (trace_least ≤ length trace.old) }
    ensures { Decides (ok (scenario_in count boards.now words.now)) code trace.old trace.new (Ok result) }
{
    let rule = race::rule_of(code);
    match lowest_race::lowest_race(words, boards, count, rule) {
        None => Verdict::Free,
        Some((e, x)) => lock(words, boards, count, code, e, x, trace),
    }
}
