// The step rules of each kind of step: sends, deliveries and consumes, by the parts of a run that they read.
#![tactic(auto)]

ghost use Rattle.std.specs.Prelude.{◌≡◌, false, List, ℕ, ◌+◌, ◌*◌, ◌<◌, ◌≤◌, length};
ghost use Rattle.relation.specs.Width.{width};
ghost use Rattle.board.specs.Masks.{mask_rows};
ghost use Rattle.step.specs.Steps.{message_in};
ghost use Rattle.step_rules.specs.Steps.{held_up, SaysFree, SaysRow};

use board::{Scenario, board_of};
use channel_table::Channel;
use readiness::Readiness;
use relation::WIDTH;
use step::Step;

// Message m may be sent where its board is free: its send is ready, and the further condition holds.
fn may_send<'a>(
    scenario: &Scenario,
    c: Channel,
    done: &'a [u64; WIDTH],
    way: &'a [u64; WIDTH],
    m: usize,
) -> bool
    requires m_lt_count { m < scenario.now.count }
    ensures { SaysFree scenario.now.count scenario.now.boards.now scenario.now.words.now c done.now way.now (Step.Send m) result }
{
    let send = 2 * m;
    let readiness = readiness::readiness_of(scenario, done, send);
    match readiness {
        Readiness::Ready => rules::send_rule(scenario.words, scenario.masks, c.to_send, way, m),
        _ => false,
    }
}

// Message m may be delivered where its board is free: it is under way, and the further condition holds.
fn may_deliver(scenario: &Scenario, c: Channel, way: &[u64; WIDTH], m: usize) -> bool
    requires m_lt_count { m < scenario.now.count }
    ensures { (done : List ℕ) → SaysFree scenario.now.count scenario.now.boards.now scenario.now.words.now c done way.now (Step.Deliver m) result }
{
    let send = 2 * m;
    if !relation::test(way, 0, send) {
        return false;
    }
    let receive = send + 1;
    let target = board_of(scenario.boards, receive);
    rules::deliver_rule(scenario.words, scenario.masks, c.to_deliver, way, target, m)
}

// Message m may be consumed: it is in its target's buffer, row y of those held, and its receive is ready.
fn may_consume<'a>(
    scenario: &Scenario,
    done: &'a [u64; WIDTH],
    held: &'a [u64],
    y: usize,
    m: usize,
) -> bool
    requires m_lt_count { (m < scenario.now.count) × (y * width + width ≤ length held.now) }
    ensures { (c : Channel) (way : List ℕ) → SaysRow scenario.now.count scenario.now.boards.now scenario.now.words.now c done.now way held.now y (Step.Consume m) result }
{
    let send = 2 * m;
    if !relation::test(held, y, send) {
        return false;
    }
    let receive = send + 1;
    let readiness = readiness::readiness_of(scenario, done, receive);
    matches!(readiness, Readiness::Ready)
}

// A send or a delivery on a board that is not free, its buffer being row y of those held. Asked ahead of the rest: most steps that a search
// tries are held up, and it is soon told.
pub fn held_up(masks: &[u64], eager: bool, held: &[u64], y: usize, step: Step) -> bool
    requires width_in_bounds { mask_rows * width ≤ length masks.now }
    requires width_in_bounds_2 { y * width + width ≤ length held.now }
    ensures { result ≡ held_up eager masks.now held.now y step }
{
    match step {
        Step::Send(_) | Step::Deliver(_) => !rules::board_free(masks, eager, held, y),
        Step::Consume(_) => false,
    }
}

// A step that is not held up is allowed, by the parts of a run that it reads: what is done, what is under way, and the buffer of its board, row y
// of those held.
pub fn allowed_by<'a>(
    scenario: &Scenario,
    c: Channel,
    done: &'a [u64; WIDTH],
    way: &'a [u64; WIDTH],
    held: &'a [u64],
    y: usize,
    step: Step,
) -> bool
    requires step_bound { (message_in step < scenario.now.count) × (y * width + width ≤ length held.now) }
    requires step_value { held_up c.eager scenario.now.masks.now held.now y step ≡ false }
    ensures { SaysRow scenario.now.count scenario.now.boards.now scenario.now.words.now c done.now way.now held.now y step result }
{
    match step {
        Step::Send(m) => may_send(scenario, c, done, way, m),
        Step::Deliver(m) => may_deliver(scenario, c, way, m),
        Step::Consume(m) => may_consume(scenario, done, held, y, m),
    }
}
