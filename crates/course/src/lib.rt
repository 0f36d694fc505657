// One course of events from lists of event numbers: a list is judged, its links go into the relation, and the course is taken from it.
#![tactic(auto)]

ghost use Rattle.std.specs.Prelude.{◌≡◌, true, ◌++◌, ◌*◌, ◌≤◌, length, drop};
ghost use Rattle.model.specs.Bounded.{each_once};
ghost use Rattle.model.specs.Taps.{course_of};
ghost use Rattle.relation.specs.Width.{width, word_bits};
ghost use Rattle.relation.specs.Order.{before};
ghost use Rattle.course.specs.Links.{Room, linked_by};
ghost use Rattle.course.specs.Left.{AllLeft, NoCircle};

use free_event::next_event;
use relation::WIDTH;

// The members of the list are events, below `events`, and none is there twice.
pub fn each_once(list: &[u16], events: usize) -> bool
    requires { events ≤ word_bits * width }
    ensures { result ≡ each_once events list.now }
{
    let mut seen = [0u64; WIDTH];
    for member in list {
        let event = *member as usize;
        if events <= event {
            return false;
        }
        if relation::test(&seen, 0, event) {
            return false;
        }
        relation::mark(&mut seen, 0, event);
    }
    true
}

// Each member of the list is put before the next. The relation is kept closed.
pub fn link(words: &mut [u64], list: &[u16], events: usize)
    requires room { Room events words.old }
    requires list_value { each_once events list.now ≡ true }
    ensures { words.new ≡ linked_by width events list.now words.old }
{
    for i in 1..list.len() {
        let ahead = i - 1;
        let x = list[ahead] as usize;
        let y = list[i] as usize;
        closure::insert(words, x, y, 0, events);
    }
}

// All events are left.
fn all_left(events: usize) -> [u64; WIDTH]
    requires { events ≤ word_bits * width }
    ensures { AllLeft events result }
{
    let mut left = [0u64; WIDTH];
    for x in 0..events {
        relation::mark(&mut left, 0, x);
    }
    left
}

// The course of all events: always the lowest that has nothing left before it.
pub fn write_course(words: &[u64], events: usize, output: &mut [u16])
    requires width_in_bounds { word_bits * width * width ≤ length words.now }
    requires events_bound { (events ≤ word_bits * width) × (events ≤ length output.old) }
    requires no_circle { NoCircle events words.now }
    ensures { output.new ≡ course_of events (before width words.now) events ++ drop events output.old }
{
    let mut left = all_left(events);
    for i in 0..events {
        let k = next_event(words, &left).unwrap();
        output[i] = k as u16;
        left = run::without(left, k);
    }
}
