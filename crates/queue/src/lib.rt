// The queue of a dispatcher's jobs, the head first.
#![tactic(auto)]

ghost use Rattle.std.specs.Prelude.{◌≡◌};
ghost use Rattle.model.specs.Dispatcher.{is_last};
ghost use Rattle.queue.specs.Bridge.{job_in, empty_queue, queue_in, Counted, head_in, head_of, FirstPlace};

use model::JOBS_MOST;

// A job held: its number and place, the code that it was admitted with, the messages that its walk meets, and the turns that it had.
#[repr(C)]
#[derive(Clone, Copy)]
pub struct Job {
    pub number: u32,
    pub turns: u32,
    pub count: u16,
    pub place: u8,
    pub code: u8,
}

// The jobs held, in the order of their turns: the first `held` of the array. Of a value that no call made they are read as far as each has a
// place of its own, so that there is always room for one more where a place is free.
#[repr(C)]
#[derive(Clone, Copy)]
pub struct Queue {
    pub jobs: [Job; JOBS_MOST],
    pub held: u32,
}

// How many jobs are held, and their places: bit p is place p.
#[derive(Clone, Copy)]
pub struct Taken {
    pub count: usize,
    pub places: u64,
}

impl Job {
    // A job of n messages is answered on its own turn number 2n + 1.
    pub fn is_last(self) -> bool
        ensures { result ≡ is_last (job_in self) }
    {
        2 * self.count as u32 <= self.turns
    }
}

impl Queue {
    // No job is held.
    pub fn empty() -> Self
        ensures { result ≡ empty_queue }
    {
        let none = Job {
            number: 0,
            turns: 0,
            count: 0,
            place: 0,
            code: 0,
        };
        Queue {
            jobs: [none; JOBS_MOST],
            held: 0,
        }
    }

    // The job that a turn takes, if one is held: the head of the queue.
    pub fn head(self, count: usize) -> Option<Job>
        requires { Counted self count }
        ensures { head_in result ≡ head_of (queue_in self) }
    {
        if count == 0 {
            return None;
        }
        Some(self.jobs[0])
    }

    // The place of the head, where a job is held: one of the eight in any case.
    pub fn first_place(self) -> usize
        ensures { FirstPlace (queue_in self) result }
    {
        let first = self.jobs[0];
        first.place as usize % JOBS_MOST
    }
}
