// A job goes behind the last of a queue, a job leaves it, and the queue behind a turn.
#![tactic(auto)]

ghost use Rattle.std.specs.Prelude.{◌≡◌, true, [], ◌∷◌, ◌++◌, ◌+◌, ◌-◌, ◌<◌, length, take, drop};
ghost use Rattle.std.proofs.Math.Option.{some};
ghost use Rattle.model.specs.Limits.{jobs_most};
ghost use Rattle.model.specs.Dispatcher.{turned};
ghost use Rattle.queue.specs.Bridge.{job_in, queue_in, Counted, is_free_in, head_of};

use queue::{Job, Queue};

// A job goes behind the last, into a free place.
pub fn behind_last(mut queue: Queue, job: Job, count: usize) -> Queue
    requires counted { Counted queue count }
    requires place_lt_jobs_most { (job.place < jobs_most) × (is_free_in (queue_in queue) job.place ≡ true) }
    ensures { queue_in result ≡ queue_in queue ++ (job_in job ∷ []) }
{
    queue.jobs[count] = job;
    queue.held = (count + 1) as u32;
    queue
}

// The job at `at` leaves, and those behind it move up.
pub fn closed_up(mut queue: Queue, at: usize, count: usize) -> Queue
    requires counted { Counted queue count }
    requires at_in_bounds { at < length (queue_in queue) }
    ensures { (queue_in result ≡ take at (queue_in queue) ++ drop (at + 1) (queue_in queue)) × Counted result (count - 1) }
{
    let last = count - 1;
    for i in at..last {
        let behind = queue.jobs[i + 1];
        queue.jobs[i] = behind;
    }
    queue.held = last as u32;
    queue
}

// The queue behind a turn: its head leaves on its last turn, and else goes behind the last with one turn more.
pub fn turned(queue: Queue, head: Job, count: usize) -> Queue
    requires { (head_of (queue_in queue) ≡ some (job_in head)) × Counted queue count }
    ensures { queue_in result ≡ turned (queue_in queue) }
{
    let mut rest = closed_up(queue, 0, count);
    if head.is_last() {
        return rest;
    }
    let mut again = head;
    again.turns = head.turns + 1;
    let last = count - 1;
    rest.jobs[last] = again;
    rest.held = count as u32;
    rest
}
