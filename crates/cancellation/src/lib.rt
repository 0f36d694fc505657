// Cancelling a job at the counter: the job with the number leaves the queue, and the words of its place are cleared.
#![tactic(auto)]

ghost use Rattle.lent.specs.Lent.{LineFits};
ghost use Rattle.cancellation.specs.Cancelling.{LeavesIn};

use outcome::{Reason, Refusal};
use queue::Queue;

// A cancellation, from the queue: the queue that it leaves. Where it is refused the queue stays as it was.
// Kept out of line: in line, the dispatcher's call holds one more copy of the dispatcher.
#[inline(never)]
pub fn leave(queue: Queue, number: u32, words: &mut [u64]) -> Result<Queue, Refusal>
    ensures leaves { LeavesIn queue number words.old words.new result }
    ensures fits { LineFits result }
{
    lent::at_least(model::JOB_WORDS_LEAST, words.len())?;
    if !job_numbers::holds(queue, number) {
        places::clear_free(words, taken_places::places(queue));
        return Err(Reason::Held.at(0));
    }
    let left = job_numbers::without(queue, number);
    places::clear_free(words, taken_places::places(left));
    Ok(left)
}
