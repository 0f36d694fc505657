// What two taps' lists of event numbers decide on an accepted sheet: one course of events for both, a clash, or a list that is refused.
#![tactic(auto)]

ghost use Rattle.std.specs.Prelude.{Ok, ◌≡◌, true, ◌*◌};
ghost use Rattle.model.specs.Bounded.{each_once};
ghost use Rattle.relation.specs.Width.{width};
ghost use Rattle.relation.specs.Order.{before, Transitive};
ghost use Rattle.course.specs.Links.{Room, linked_by};
ghost use Rattle.taps.specs.Parts.{DecidesFor, Lent};

use outcome::{Reason, Refusal};

// Fit, with the number of events in the output; or a clash, with the event that would have to precede itself.
#[derive(Clone, Copy)]
pub enum Taps {
    Fit(usize),
    Clash(usize),
}

// The links of both lists go into the relation.
fn link_both(words: &mut [u64], count: usize, first: &[u16], second: &[u16])
    requires room { Room (2 * count) words.old }
    requires transitive { Transitive (2 * count) (before width words.old) }
    requires first_value { each_once (2 * count) first.now ≡ true }
    requires second_value { each_once (2 * count) second.now ≡ true }
    ensures { words.new ≡ linked_by width (2 * count) second.now (linked_by width (2 * count) first.now words.old) }
{
    let events = 2 * count;
    course::link(words, first, events);
    course::link(words, second, events);
}

// With the links of both lists in the relation a circle is a clash, and without one the course goes into the output.
fn fit_both(
    words: &mut [u64],
    count: usize,
    first: &[u16],
    second: &[u16],
    output: &mut [u16],
) -> Taps
    requires lent { Lent count words.old output.old }
    requires first_value { each_once (2 * count) first.now ≡ true }
    requires second_value { each_once (2 * count) second.now ≡ true }
    ensures { DecidesFor count words.old first.now second.now output.old output.new (Ok result) }
{
    let events = 2 * count;
    link_both(words, count, first, second);
    match closure::lowest_own(words, events) {
        Some(x) => Taps::Clash(x),
        None => {
            course::write_course(words, events, output);
            Taps::Fit(events)
        }
    }
}

// The lists are judged, the first one first, and then fitted.
pub fn decide(
    words: &mut [u64],
    count: usize,
    first: &[u16],
    second: &[u16],
    output: &mut [u16],
) -> Result<Taps, Refusal>
    requires { Lent count words.old output.old }
    ensures { DecidesFor count words.old first.now second.now output.old output.new result }
{
    let events = 2 * count;
    if !course::each_once(first, events) {
        return Err(Reason::Tap.at(1));
    }
    if !course::each_once(second, events) {
        return Err(Reason::Tap.at(2));
    }
    Ok(fit_both(words, count, first, second, output))
}
