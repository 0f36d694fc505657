// The last turn of a job: the check's answer, from what the turns before it found.
#![tactic(auto)]

ghost use Rattle.std.specs.Prelude.{◌≡◌, ◌*◌, ◌≤◌, length};
ghost use Rattle.model.specs.Limits.{messages_most, trace_least};
ghost use Rattle.relation.specs.Width.{width};
ghost use Rattle.last_turn.specs.Answer.{all_on_boards, zeros, numbers_in, Concludes};

use answer_words::checked::{FREE, LOCKED};
use share::Race;

// The check's answer as numbers: word 0 free; 1 locked, with the race's message and event and the number of steps.
#[repr(C)]
#[derive(Clone, Copy)]
pub struct Numbers {
    pub word: u32,
    pub one: u32,
    pub two: u32,
    pub three: u32,
}

impl Numbers {
    // No answer, and the answer "free".
    pub fn zero() -> Self
        ensures { result ≡ zeros }
    {
        Numbers {
            word: FREE,
            one: 0,
            two: 0,
            three: 0,
        }
    }
}

// The events of the messages are on boards of the paper.
fn are_boards(boards: &[u8], count: usize) -> bool
    requires { 2 * count ≤ length boards.now }
    ensures { result ≡ all_on_boards boards.now count }
{
    for x in 0..2 * count {
        if model::BOARDS <= board::board_of(boards, x) {
            return false;
        }
    }
    true
}

// The answer of a job from the race that its search found, and the steps in the trace. Of what no job can hold, free is said.
pub fn conclude(
    race: Race,
    words: &[u64],
    boards: &[u8; model::EVENTS_MOST],
    count: usize,
    code: usize,
    trace: &mut [u8],
) -> Numbers
    requires words_len { length words.now ≡ 2 * messages_most * width }
    requires trace_least_in_bounds { trace_least ≤ length trace.old }
    ensures { Concludes count boards.now words.now code race trace.old trace.new (numbers_in result) }
{
    if race.found == 0 {
        return Numbers::zero();
    }
    if model::MESSAGES_MOST < count {
        return Numbers::zero();
    }
    if model::CHANNELS <= code {
        return Numbers::zero();
    }
    let e = race.message as usize;
    if count <= e {
        return Numbers::zero();
    }
    if !are_boards(boards, count) {
        return Numbers::zero();
    }
    let steps = verdict::withhold(words, boards, count, code, e, trace);
    Numbers {
        word: LOCKED,
        one: race.message,
        two: race.event,
        three: steps as u32,
    }
}
