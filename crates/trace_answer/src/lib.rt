// The length that a trace from another tool has, and the verdict on it as C gets it.
#![tactic(auto)]

ghost use Rattle.std.specs.Prelude.{◌≡◌};
ghost use Rattle.model.specs.Replay.{replay_numbers, is_trace};
ghost use Rattle.trace_answer.specs.Numbers.{verdict_in, Numbers, Small};

use answer_words::replayed::{FINISHED, NOT_ALLOWED, OPEN, REFUSED, STUCK};
use outcome::Refusal;
use trace_steps::{Outcome, Replay};

// word 0 finished, 1 stuck, 2 open, 3 not allowed (one is the step's index), 4 refused (one is the number, two the line).
// On stuck each board has in waits the event that it waits for; 65,535 if there is none, and on every other word.
#[repr(C)]
#[derive(Clone, Copy)]
pub struct TraceCheckAnswer {
    pub word: u32,
    pub one: u32,
    pub two: u32,
    pub waits: [u16; model::BOARDS],
}

// The numbers of a verdict, or of a refusal, on which no board waits. Each fits 32 bits.
#[tactic(auto, unfolding(model::specs::Waits::each_board))]
pub fn numbers(outcome: Result<Outcome, Refusal>) -> TraceCheckAnswer
    requires { Small (replay_numbers (verdict_in outcome)) }
    ensures { Numbers outcome result }
{
    match outcome {
        Ok(outcome) => {
            let waits = outcome.waits;
            let (word, one) = match outcome.verdict {
                Replay::Finished => (FINISHED, 0),
                Replay::Stuck => (STUCK, 0),
                Replay::Open => (OPEN, 0),
                Replay::NotAllowed(index) => (NOT_ALLOWED, index as u32),
            };
            TraceCheckAnswer {
                word,
                one,
                two: 0,
                waits,
            }
        }
        Err(refusal) => TraceCheckAnswer {
            word: REFUSED,
            one: refusal.reason.number(),
            two: refusal.line as u32,
            waits: [model::NO_WAIT; model::BOARDS],
        },
    }
}

// A trace has an even length, of two bytes for each of three steps a message at most.
#[tactic(auto, unfolding(model::specs::Replay::is_trace))]
pub fn is_trace(length: usize) -> bool
    ensures { result ≡ is_trace length }
{
    length % 2 == 0 && length <= model::TRACE_LEAST
}
