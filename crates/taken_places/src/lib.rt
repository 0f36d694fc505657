// The places that the jobs of a queue hold, how many these are, and the lowest free place.
#![tactic(auto)]

ghost use Rattle.std.specs.Prelude.{◌≡◌};
ghost use Rattle.outcome.specs.Options.{found_in};
ghost use Rattle.queue.specs.Bridge.{queue_in, PlacesOf, free_place_in};
ghost use Rattle.taken_places.specs.Places.{MayStand, TakenIn, SparePlace};

use model::JOBS_MOST;
use queue::{Queue, Taken};

// A job may be put in the place: it is one of the eight, and none of those taken.
fn may_stand(taken: u64, place: usize) -> bool
    ensures { MayStand taken place result }
{
    place < JOBS_MOST && (taken >> place) & 1 != 1
}

// How many jobs are held, and where.
pub fn taken(queue: Queue) -> Taken
    ensures { TakenIn queue result }
{
    let mut places = 0;
    for i in 0..JOBS_MOST {
        if queue.held as usize <= i {
            return Taken { count: i, places };
        }
        let job = queue.jobs[i];
        let place = job.place as usize;
        if !may_stand(places, place) {
            return Taken { count: i, places };
        }
        places = places | (1 << place);
    }
    Taken {
        count: JOBS_MOST,
        places,
    }
}

// The places of the jobs: bit p is place p.
pub fn places(queue: Queue) -> u64
    ensures { PlacesOf (queue_in queue) result }
{
    let taken = taken(queue);
    taken.places
}

// The lowest free place, if one is free.
pub fn free_place(queue: Queue) -> Option<usize>
    ensures { found_in result ≡ free_place_in (queue_in queue) }
{
    let taken = places(queue);
    for place in 0..JOBS_MOST {
        if may_stand(taken, place) {
            return Some(place);
        }
    }
    None
}

// The lowest free place, where there is one: one of the eight in any case.
pub fn spare_place(queue: Queue) -> usize
    ensures { SparePlace (queue_in queue) result }
{
    // Not `unwrap_or`: the edits spare_place_always_0 and spare_place_beyond_the_last change what each arm gives.
    match free_place(queue) {
        Some(place) => place,
        None => 0,
    }
}
