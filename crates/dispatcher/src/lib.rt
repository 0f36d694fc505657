// Several makers at the counter: up to eight jobs, each with its place and its words, and a turn at a time for the head of their queue.
#![tactic(auto)]

ghost use Rattle.std.specs.Prelude.{◌≡◌, ◌<◌, ◌^◌};
ghost use Rattle.model.specs.Limits.{jobs_most};
ghost use Rattle.model.specs.Dispatcher.{empty_dispatcher, WholeLists};
ghost use Rattle.lent.specs.Lent.{LineFits};
ghost use Rattle.admission.specs.Admission.{entered_by};
ghost use Rattle.head_turn.specs.Serving.{turned_by};
ghost use Rattle.cancellation.specs.Cancelling.{left_by};
ghost use Rattle.dispatcher.specs.Bridge.{held_in, dispatcher_in, Holds, emptied, answer_in, told_of, served_as, unanswered_as, refused_as, AdmitOf, TurnOf, CancelOf};

use admission::{Entry, Part};
use answer_words::served::{ADMITTED, ANSWERED, CANCELLED, IDLE, REFUSED, TAKEN};
use head_turn::Turn;
pub use held_jobs::Boards;
use last_turn::Numbers;
use outcome::Refusal;
use queue::Queue;
use share::Race;

// The jobs in the order of their turns; how many numbers were given out; and of each place what the race search of its job has found, and
// the boards of its events. The relation of a job is in the words of its place.
#[repr(C)]
#[derive(Clone, Copy)]
pub struct Dispatcher {
    pub queue: Queue,
    pub given: u32,
    pub races: [Race; model::JOBS_MOST],
    pub boards: [Boards; model::JOBS_MOST],
}

// word 0 admitted (one is the job's number, two its place), 1 idle, 2 a turn of job one, 3 job one answered, 4 job one cancelled, 5 refused (one is
// the number, two the line); the check's answer, zero but on 3; and the dispatcher to go on with.
#[repr(C)]
#[derive(Clone, Copy)]
pub struct DispatcherAnswer {
    pub word: u32,
    pub one: u32,
    pub two: u32,
    pub answer: Numbers,
    pub next: Dispatcher,
}

impl Dispatcher {
    // No job is held, and no number was given out.
    pub fn empty() -> Self
        ensures value { result ≡ emptied }
        ensures result_value { dispatcher_in result ≡ empty_dispatcher }
    {
        Dispatcher {
            queue: Queue::empty(),
            given: 0,
            races: [Race {
                found: 0,
                message: 0,
                event: 0,
            }; model::JOBS_MOST],
            boards: [Boards {
                on: [0; model::EVENTS_MOST],
            }; model::JOBS_MOST],
        }
    }

    // What an admission tells, with what it leaves put in place. Where it is refused the dispatcher stays as it was.
    fn entered(&mut self, place: usize, outcome: Result<Entry, Refusal>) -> Told
        requires place_lt_jobs_most { place < jobs_most }
        requires fits { LineFits outcome }
        ensures { served_as result self.new ≡ entered_by (held_in self.old) place outcome }
    {
        match outcome {
            Err(refusal) => refused(refusal),
            Ok(entry) => {
                self.queue = entry.queue;
                self.given = entry.given;
                self.races[place] = entry.race;
                self.boards[place] = entry.boards;
                unanswered(ADMITTED, entry.number, entry.place)
            }
        }
    }

    // The same of a turn. One that is idle changes nothing either.
    fn turned(&mut self, place: usize, outcome: Result<Turn, Refusal>) -> Told
        requires place_lt_jobs_most { place < jobs_most }
        requires fits { LineFits outcome }
        ensures { served_as result self.new ≡ turned_by (held_in self.old) place outcome }
    {
        match outcome {
            Err(refusal) => refused(refusal),
            Ok(Turn::Idle) => unanswered(IDLE, 0, 0),
            Ok(Turn::Taken(number, found, queue)) => {
                self.queue = queue;
                self.races[place] = found;
                unanswered(TAKEN, number, 0)
            }
            Ok(Turn::Answered(number, answer, queue)) => {
                self.queue = queue;
                Told {
                    word: ANSWERED,
                    one: number,
                    two: 0,
                    answer,
                }
            }
        }
    }

    // The same of a cancellation.
    fn left(&mut self, number: u32, outcome: Result<Queue, Refusal>) -> Told
        requires { LineFits outcome }
        ensures { served_as result self.new ≡ left_by (held_in self.old) number outcome }
    {
        match outcome {
            Err(refusal) => refused(refusal),
            Ok(queue) => {
                self.queue = queue;
                unanswered(CANCELLED, number, 0)
            }
        }
    }

    // An admission: the new sheet and its code are lent in the place that it takes. The dispatcher is changed where it stands, since a value is
    // copied whole wherever it goes.
    pub fn admit(
        self,
        sheets: &[u8],
        lengths: &[u32],
        codes: &[u32],
        words: &mut [u64],
    ) -> DispatcherAnswer
        ensures { AdmitOf self sheets.now lengths.now codes.now words.old words.new (answer_in result) × WholeLists dispatcher_in Holds emptied }
    {
        let mut next = self;
        let place = taken_places::spare_place(next.queue);
        let part = Part {
            queue: next.queue,
            given: next.given,
        };
        let outcome = admission::admit_into(part, place, sheets, lengths, codes, words);
        let told = next.entered(place, outcome);
        DispatcherAnswer {
            word: told.word,
            one: told.one,
            two: told.two,
            answer: told.answer,
            next,
        }
    }

    // A turn takes the head of the queue. It reads no sheet and no code.
    pub fn turn(self, words: &mut [u64], trace: &mut [u8]) -> DispatcherAnswer
        ensures { TurnOf self words.old trace.old words.new trace.new (answer_in result) × WholeLists dispatcher_in Holds emptied }
    {
        let mut next = self;
        let place = next.queue.first_place();
        let own = next.boards[place];
        let race = next.races[place];
        let outcome = head_turn::serve(next.queue, place, race, &own.on, words, trace);
        let told = next.turned(place, outcome);
        DispatcherAnswer {
            word: told.word,
            one: told.one,
            two: told.two,
            answer: told.answer,
            next,
        }
    }

    // The job with the number leaves. No sheet and no code is read.
    pub fn cancel(self, number: u32, words: &mut [u64]) -> DispatcherAnswer
        ensures { CancelOf self number words.old words.new (answer_in result) × WholeLists dispatcher_in Holds emptied }
    {
        let mut next = self;
        let outcome = cancellation::leave(next.queue, number, words);
        let told = next.left(number, outcome);
        DispatcherAnswer {
            word: told.word,
            one: told.one,
            two: told.two,
            answer: told.answer,
            next,
        }
    }
}

// What a call tells, without the dispatcher to go on with.
#[derive(Clone, Copy)]
struct Told {
    word: u32,
    one: u32,
    two: u32,
    answer: Numbers,
}

// A word and its numbers, with no answer of the check's.
fn unanswered(word: u32, one: u32, two: u32) -> Told
    ensures { told_of result ≡ unanswered_as word one two }
{
    Told {
        word,
        one,
        two,
        answer: Numbers::zero(),
    }
}

// A call refused.
fn refused(refusal: Refusal) -> Told
    requires { refusal.line < 2 ^ 32 }
    ensures { told_of result ≡ refused_as refusal }
{
    unanswered(REFUSED, refusal.reason.number(), refusal.line as u32)
}
