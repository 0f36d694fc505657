// A turn of the head of the queue: a share of its race search, or, on its last turn, the check's answer.
#![tactic(auto)]

ghost use Rattle.std.specs.Prelude.{Ok, ◌≡◌, true, false, ◌%◌, ◌≤◌, length};
ghost use Rattle.std.proofs.Math.Option.{some};
ghost use Rattle.model.specs.Limits.{jobs_most, job_words_least, trace_least};
ghost use Rattle.model.specs.Dispatcher.{is_last};
ghost use Rattle.queue.specs.Bridge.{job_in, queue_in, Counted, head_of, FirstPlace};
ghost use Rattle.taken_places.specs.Places.{TakenIn};
ghost use Rattle.lent.specs.Lent.{LineFits};
ghost use Rattle.head_turn.specs.Serving.{TakesTurn, TurnIn};

use last_turn::Numbers;
use outcome::Refusal;
use queue::{Job, Queue, Taken};
use share::Race;

// A turn: no job is held; or the job of a number had one, with what the search has found and the queue that it leaves; or it is answered, with the
// check's answer and the queue without it.
#[derive(Clone, Copy)]
pub enum Turn {
    Idle,
    Taken(u32, Race, Queue),
    Answered(u32, Numbers, Queue),
}

// A turn that is not its job's last: a share of the race search, and the job goes behind the last. The places held stay the same.
fn take(
    queue: Queue,
    taken: Taken,
    job: Job,
    race: Race,
    boards: &[u8; model::EVENTS_MOST],
    words: &mut [u64],
) -> Turn
    requires taken_in { TakenIn queue taken }
    requires queue_value { (head_of (queue_in queue) ≡ some (job_in job)) × (is_last (job_in job) ≡ false) }
    requires job_words_least_in_bounds { job_words_least ≤ length words.old }
    ensures { TakesTurn queue (job.place % jobs_most) race boards.now words.old words.new (Ok result) }
{
    let place = job.place as usize % model::JOBS_MOST;
    let from = place * model::SCRATCH_LEAST;
    let to = from + model::SCRATCH_LEAST;
    let found = share::looked(
        race,
        &words[from..to],
        boards,
        job.count as usize,
        job.code as usize,
        job.turns as usize,
    );
    let turned = queue_moves::turned(queue, job, taken.count);
    places::clear_free(words, taken.places);
    Turn::Taken(job.number, found, turned)
}

// A job's last turn: the check's answer, and the job leaves.
fn answer(
    queue: Queue,
    count: usize,
    job: Job,
    race: Race,
    boards: &[u8; model::EVENTS_MOST],
    words: &mut [u64],
    trace: &mut [u8],
) -> Turn
    requires counted { Counted queue count }
    requires queue_value { (head_of (queue_in queue) ≡ some (job_in job)) × (is_last (job_in job) ≡ true) }
    requires job_words_least_in_bounds { (job_words_least ≤ length words.old) × (trace_least ≤ length trace.old) }
    ensures { TurnIn queue (job.place % jobs_most) race boards.now words.old trace.old words.new trace.new (Ok result) }
{
    let place = job.place as usize % model::JOBS_MOST;
    let from = place * model::SCRATCH_LEAST;
    let to = from + model::SCRATCH_LEAST;
    let told = last_turn::conclude(
        race,
        &words[from..to],
        boards,
        job.count as usize,
        job.code as usize,
        trace,
    );
    let turned = queue_moves::turned(queue, job, count);
    let left = taken_places::places(turned);
    places::clear_free(words, left);
    Turn::Answered(job.number, told, turned)
}

// A turn, from the queue and what stands in the place of its head. A turn that is idle or refused leaves the dispatcher as it was.
pub fn serve(
    queue: Queue,
    place: usize,
    race: Race,
    boards: &[u8; model::EVENTS_MOST],
    words: &mut [u64],
    trace: &mut [u8],
) -> Result<Turn, Refusal>
    requires { FirstPlace (queue_in queue) place }
    ensures turns { TurnIn queue place race boards.now words.old trace.old words.new trace.new result }
    ensures fits { LineFits result }
{
    lent::at_least(model::JOB_WORDS_LEAST, words.len())?;
    lent::at_least(model::TRACE_LEAST, trace.len())?;
    let taken = taken_places::taken(queue);
    let Some(job) = queue.head(taken.count) else {
        places::clear_free(words, taken.places);
        return Ok(Turn::Idle);
    };
    if job.is_last() {
        return Ok(answer(queue, taken.count, job, race, boards, words, trace));
    }
    Ok(take(queue, taken, job, race, boards, words))
}
