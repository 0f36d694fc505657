// The job with a number in a queue: whether it is held, and the queue without it.
#![tactic(auto)]

ghost use Rattle.std.specs.Prelude.{◌≡◌, true};
ghost use Rattle.model.specs.Bounded.{among};
ghost use Rattle.model.specs.Dispatcher.{numbers_in, without};
ghost use Rattle.queue.specs.Bridge.{queue_in, Counted};
ghost use Rattle.job_numbers.specs.Position.{IsPosition};

use queue::Queue;

fn count(queue: Queue) -> usize
    ensures { Counted queue result }
{
    let taken = taken_places::taken(queue);
    taken.count
}

// Where the job with the number stands, if one has it.
fn position(queue: Queue, number: u32) -> Option<usize>
    ensures { IsPosition number (queue_in queue) result }
{
    let count = count(queue);
    for i in 0..count {
        let job = queue.jobs[i];
        if job.number == number {
            return Some(i);
        }
    }
    None
}

// A job with the number is held.
pub fn holds(queue: Queue, number: u32) -> bool
    ensures { result ≡ among number (numbers_in (queue_in queue)) }
{
    position(queue, number).is_some()
}

// The job with the number leaves.
pub fn without(queue: Queue, number: u32) -> Queue
    requires { among number (numbers_in (queue_in queue)) ≡ true }
    ensures { queue_in result ≡ without number (queue_in queue) }
{
    match position(queue, number) {
        Some(at) => queue_moves::closed_up(queue, at, count(queue)),
        None => queue,
    }
}
