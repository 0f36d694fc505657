// The search for the next step of the schedule: class by class, the lowest message first.
#![tactic(auto)]

ghost use Rattle.std.specs.Prelude.{◌<◌};
ghost use Rattle.buffers.specs.Held.{HeldAnywhere};
ghost use Rattle.next_step.specs.Search.{Fits, Lowest, ChosenIn};

use board::Scenario;
use buffers::Parts;
use channel::may_step;
use channel_table::Channel;
use relation::WIDTH;
use step::Step;
use step_classes::Class;

// Message m is of the class and its step is allowed, in every run with these parts.
fn fits_class(
    scenario: &Scenario,
    c: Channel,
    parts: &Parts,
    e: usize,
    class: Class,
    m: usize,
) -> bool
    requires e_lt_count { (e < scenario.now.count) × (m < scenario.now.count) }
    ensures { Fits scenario.now.count scenario.now.boards.now scenario.now.words.now c parts.now.done.now parts.now.way.now parts.now.rows.now e class m result }
{
    let step = step_classes::step_of(class, m);
    step_classes::takes(scenario.words, scenario.boards, scenario.count, e, class, m)
        && may_step(scenario, c, parts, step)
}

// The step of the class on the lowest message that fits, by the same parts of a run, and what its buffers hold together.
fn lowest(
    scenario: &Scenario,
    c: Channel,
    parts: &Parts,
    held: &[u64; WIDTH],
    e: usize,
    class: Class,
) -> Option<Step>
    requires held_anywhere { HeldAnywhere parts.now.rows.now held.now }
    requires e_lt_count { e < scenario.now.count }
    ensures { Lowest scenario.now.count scenario.now.boards.now scenario.now.words.now c parts.now.done.now parts.now.way.now parts.now.rows.now e class result }
{
    let among = candidates::candidates(scenario.words, parts.done, parts.way, held, e, class);
    // Not a `for`: it steps on to the next message that is a candidate.
    let mut m = next_message::next_in(&among, 0);
    while m < scenario.count {
        if fits_class(scenario, c, parts, e, class, m) {
            return Some(step_classes::step_of(class, m));
        }
        if m + 1 == scenario.count {
            return None;
        }
        m = next_message::next_in(&among, m + 1);
    }
    None
}

// The classes in the order in which they are tried.
const CLASSES: [Class; 6] = [
    Class::AnyConsume,
    Class::DeliveryOf,
    Class::NeededDelivery,
    Class::NeededSend,
    Class::AnyDelivery,
    Class::AnySend,
];

// The step that the schedule for e takes next, in every run with these parts: of the first class with an allowed step, on the lowest message.
pub fn choose(
    scenario: &Scenario,
    c: Channel,
    parts: &Parts,
    held: &[u64; WIDTH],
    e: usize,
) -> Option<Step>
    requires held_anywhere { HeldAnywhere parts.now.rows.now held.now }
    requires e_lt_count { e < scenario.now.count }
    ensures { ChosenIn scenario.now.count scenario.now.boards.now scenario.now.words.now c parts.now.done.now parts.now.way.now parts.now.rows.now e result }
{
    for class in CLASSES {
        if let Some(step) = lowest(scenario, c, parts, held, e, class) {
            return Some(step);
        }
    }
    None
}
