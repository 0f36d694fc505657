// The classes of steps that the schedule tries.
#![tactic(auto)]

ghost use Rattle.std.specs.Prelude.{◌≡◌, ◌<◌};
ghost use Rattle.relation.specs.Scenario.{scenario_in};
ghost use Rattle.at_or_before.specs.Lent.{Lent};
ghost use Rattle.step_classes.specs.Classes.{class_in, step_for};

use step::Step;

// The classes of steps, in the order in which they are tried.
#[derive(Clone, Copy)]
pub enum Class {
    AnyConsume,
    DeliveryOf,
    NeededDelivery,
    NeededSend,
    AnyDelivery,
    AnySend,
}

// The step of a class on message m.
pub fn step_of(class: Class, m: usize) -> Step
    ensures { result ≡ step_for class m }
{
    match class {
        Class::AnyConsume => Step::Consume(m),
        Class::DeliveryOf | Class::NeededDelivery | Class::AnyDelivery => Step::Deliver(m),
        Class::NeededSend | Class::AnySend => Step::Send(m),
    }
}

// Message m is one of the class, in the schedule for e.
pub fn takes(words: &[u64], boards: &[u8], count: usize, e: usize, class: Class, m: usize) -> bool
    requires lent { Lent count boards.now words.now }
    requires e_lt_count { (e < count) × (m < count) }
    ensures { result ≡ (class_in (scenario_in count boards.now words.now) e class).takes m }
{
    let needing = 2 * e;
    let send = 2 * m;
    let receive = send + 1;
    match class {
        Class::AnyConsume | Class::AnyDelivery | Class::AnySend => true,
        Class::DeliveryOf => m == e,
        Class::NeededDelivery => relation::test(words, needing, receive),
        Class::NeededSend => at_or_before::at_or_before(words, boards, count, send, needing),
    }
}
