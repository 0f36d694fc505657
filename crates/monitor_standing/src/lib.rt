// Where a monitored run stands: finished, stuck with what each board waits for, or open, by the step rules under the code in force.
#![tactic(auto)]

ghost use Rattle.std.specs.Prelude.{◌≡◌, ◌*◌, ◌<◌, length, Ok};
ghost use Rattle.model.specs.Limits.{channels, messages_most};
ghost use Rattle.model.specs.Refusal.{ok};
ghost use Rattle.model.specs.Answer.{sheet_of};
ghost use Rattle.model.specs.Standing.{Stands};
ghost use Rattle.relation.specs.Width.{width};
ghost use Rattle.relation.specs.Scenario.{scenario_in};
ghost use Rattle.scenario.specs.Contract.{Fit};
ghost use Rattle.lent.specs.Lent.{LineFits};
ghost use Rattle.monitor.specs.Bridge.{held_in, monitor_of};
ghost use Rattle.monitor_standing.specs.Bridge.{numbers_in, answer_of, Tells};

use answer_words::stood::{FINISHED, OPEN, REFUSED, STUCK};
use board::Scenario;
use monitor::Monitor;
use outcome::Refusal;
use standing::Stand;

// word 0 finished, 1 stuck, 2 open, 3 refused (one is the number, two the line).
// On stuck each board has in waits the event that it waits for; 65,535 if there is none, and on every other word.
#[repr(C)]
#[derive(Clone, Copy)]
pub struct MonitorStandingAnswer {
    pub word: u32,
    pub one: u32,
    pub two: u32,
    pub waits: [u16; model::BOARDS],
}

// Where a run stands, and the event that each board waits for.
#[derive(Clone, Copy)]
struct Stood {
    stand: Stand,
    waits: [u16; model::BOARDS],
}

// Where a run stands, or the refusal, as C gets it. On a refusal no board waits.
fn answered(outcome: Result<Stood, Refusal>) -> MonitorStandingAnswer
    requires { LineFits outcome }
    ensures { result ≡ answer_of outcome }
{
    match outcome {
        Ok(stood) => {
            let waits = stood.waits;
            let word = match stood.stand {
                Stand::Finished => FINISHED,
                Stand::Stuck => STUCK,
                Stand::Open => OPEN,
            };
            MonitorStandingAnswer {
                word,
                one: 0,
                two: 0,
                waits,
            }
        }
        Err(refusal) => MonitorStandingAnswer {
            word: REFUSED,
            one: refusal.reason.number(),
            two: refusal.line as u32,
            waits: [model::NO_WAIT; model::BOARDS],
        },
    }
}

// Where the run stands in a scenario, under the code in force. On stuck alone does a board wait.
fn stand_in(state: Monitor, words: &[u64], boards: &[u8], count: usize) -> Stood
    requires fit { Fit count boards.now words.now }
    requires code_lt_channels { state.code < channels }
    ensures { Tells (ok (scenario_in count boards.now words.now)) (held_in state) (answer_of (Ok result)) }
{
    let mut masks = [0u64; board::MASK_WORDS];
    board::board_masks(boards, count, &mut masks);
    let scenario = Scenario {
        words,
        masks: &masks,
        boards,
        count,
    };
    let code = state.code;
    let c = channel_table::channel_of(code as usize);
    let run = state.run;
    let stand = standing::stand_of(run, &scenario, c);
    let waits = match stand {
        Stand::Stuck => waits::waits_of(run, &scenario),
        _ => [model::NO_WAIT; model::BOARDS],
    };
    Stood { stand, waits }
}

// A text's scenario, and where the run stands in it.
fn judge(state: Monitor, text: &[u8], words: &mut [u64]) -> Result<Stood, Refusal>
    requires words_len { length words.old ≡ 2 * messages_most * width }
    requires code_lt_channels { state.code < channels }
    ensures tells { Tells (sheet_of text.now) (held_in state) (answer_of result) }
    ensures fits { LineFits result }
{
    let mut boards = [0u8; model::EVENTS_MOST];
    let count = scenario::scenario_of(text, &mut boards, words)?;
    Ok(stand_in(state, words, &boards, count))
}

// Refusal 1 is for the state's own code. Refusals 1 and 2 touch nothing; after every other answer the scratch is cleared.
fn judge_standing(state: Monitor, text: &[u8], scratch: &mut [u64]) -> Result<Stood, Refusal>
    ensures promise { Stands held_in monitor_of state text.now scratch.old scratch.new (numbers_in (answer_of result)) (answer_of result).waits }
    ensures fits { LineFits result }
{
    monitor::lent(state.code, scratch)?;
    let end = model::SCRATCH_LEAST;
    let outcome = judge(state, text, &mut scratch[..end]);
    relation::clear(scratch, end);
    outcome
}

// The call, with the numbers for C.
pub fn standing_of(state: Monitor, text: &[u8], scratch: &mut [u64]) -> MonitorStandingAnswer
    ensures { Stands held_in monitor_of state text.now scratch.old scratch.new (numbers_in result) result.waits }
{
    answered(judge_standing(state, text, scratch))
}
