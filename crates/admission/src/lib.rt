// A job's admission: the sheet lent in the lowest free place is read into the words there, and the job goes behind the last.
#![tactic(auto)]

ghost use Rattle.std.specs.Prelude.{Ok, ◌≡◌, ◌<◌, ◌≤◌, length};
ghost use Rattle.std.proofs.Math.Option.{some};
ghost use Rattle.model.specs.Limits.{channels, messages_most, text_most, jobs_most, job_numbers, job_words_least};
ghost use Rattle.queue.specs.Bridge.{queue_in, free_place_in};
ghost use Rattle.taken_places.specs.Places.{SparePlace};
ghost use Rattle.lent.specs.Lent.{LineFits};
ghost use Rattle.admission.specs.Admission.{HoldsNew, ReadsIn, AdmitIn};

use held_jobs::Boards;
use outcome::{Reason, Refusal};
use queue::{Job, Queue};
use share::Race;

// What an admission reads of the dispatcher: the queue, and how many numbers were given out.
#[derive(Clone, Copy)]
pub struct Part {
    pub queue: Queue,
    pub given: u32,
}

// A job admitted: its number and place, and what the admission leaves of what it may change.
#[derive(Clone, Copy)]
pub struct Entry {
    pub number: u32,
    pub place: u32,
    pub queue: Queue,
    pub given: u32,
    pub race: Race,
    pub boards: Boards,
}

// An accepted job goes behind the last, into the lowest free place.
fn hold(
    part: Part,
    place: usize,
    code: usize,
    count: usize,
    boards: Boards,
    words: &mut [u64],
) -> Entry
    requires queue_value { free_place_in (queue_in part.queue) ≡ some place }
    requires place_lt_jobs_most { (place < jobs_most) × (code < channels) × (count ≤ messages_most) × (part.given < job_numbers) }
    requires job_words_least_in_bounds { job_words_least ≤ length words.old }
    ensures { HoldsNew part place code count boards.on words.old words.new (Ok result) }
{
    let queue = part.queue;
    let job = Job {
        number: part.given,
        turns: 0,
        count: count as u16,
        place: place as u8,
        code: code as u8,
    };
    let held = taken_places::taken(queue);
    let longer = queue_moves::behind_last(queue, job, held.count);
    places::clear_free(words, taken_places::places(longer));
    let race = Race {
        found: 0,
        message: 0,
        event: 0,
    };
    Entry {
        number: part.given,
        place: place as u32,
        queue: longer,
        given: part.given + 1,
        race,
        boards,
    }
}

// The sheet lent in the place is read into its words; refused, they are cleared with those of the other free places.
fn read(
    part: Part,
    sheets: &[u8],
    size: usize,
    place: usize,
    code: usize,
    words: &mut [u64],
) -> Result<Entry, Refusal>
    requires queue_value { free_place_in (queue_in part.queue) ≡ some place }
    requires place_lt_jobs_most { (place < jobs_most) × (code < channels) × (size ≤ text_most) × (part.given < job_numbers) }
    requires job_words_least_in_bounds { job_words_least ≤ length words.old }
    ensures reads { ReadsIn part sheets.now size place code words.old words.new result }
    ensures fits { LineFits result }
{
    let mut boards = Boards {
        on: [0; model::EVENTS_MOST],
    };
    match lent_sheet::read_sheet(sheets, size, place, &mut boards.on, words) {
        Err(refusal) => {
            places::clear_free(words, taken_places::places(part.queue));
            Err(refusal)
        }
        Ok(count) => Ok(hold(part, place, code, count, boards, words)),
    }
}

// An admission, into the lowest free place. Where it is refused the dispatcher stays as it was.
// Kept out of line: in line, the dispatcher's call holds one more copy of the dispatcher.
#[inline(never)]
pub fn admit_into(
    part: Part,
    spare: usize,
    sheets: &[u8],
    lengths: &[u32],
    codes: &[u32],
    words: &mut [u64],
) -> Result<Entry, Refusal>
    requires { SparePlace (queue_in part.queue) spare }
    ensures admits { AdmitIn part spare sheets.now lengths.now codes.now words.old words.new result }
    ensures fits { LineFits result }
{
    let Some(place) = taken_places::free_place(part.queue) else {
        // no place is free: there is no new sheet and no code to judge
        lent::at_least(model::JOB_WORDS_LEAST, words.len())?;
        return Err(Reason::Jobs.at(0));
    };
    let code = lent_sheet::code_at(codes, place);
    if model::CHANNELS <= code {
        return Err(Reason::Channel.at(0));
    }
    lent::at_least(model::JOB_WORDS_LEAST, words.len())?;
    let taken = taken_places::places(part.queue);
    if model::JOB_NUMBERS <= part.given as usize {
        places::clear_free(words, taken);
        return Err(Reason::Jobs.at(0));
    }
    let size = lent_sheet::length_at(lengths, place);
    if model::TEXT_MOST < size {
        places::clear_free(words, taken);
        return Err(Reason::Length.at(0));
    }
    read(part, sheets, size, place, code, words)
}
