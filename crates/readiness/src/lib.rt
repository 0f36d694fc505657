// The readiness of an event: whether every event before it on its board is done, and if not, which it waits for.
#![tactic(auto)]

ghost use Rattle.std.specs.Prelude.{◌*◌, ◌<◌};
ghost use Rattle.readiness.specs.Says.{SaysReadiness};

use board::{Scenario, board_of};
use first_left::first_left;
use relation::WIDTH;

// An event is ready; or done already; or it waits for the lowest event before it on its board that is not yet done.
#[derive(Clone, Copy)]
pub enum Readiness {
    Ready,
    Done,
    Waits(usize),
}

// The readiness of event x. Done comes first.
pub fn readiness_of(scenario: &Scenario, done: &[u64; WIDTH], x: usize) -> Readiness
    requires x_bound { x < 2 * scenario.now.count }
    ensures { SaysReadiness scenario.now.count scenario.now.boards.now scenario.now.words.now done.now x result }
{
    if relation::test(done, 0, x) {
        return Readiness::Done;
    }
    let board = board_of(scenario.boards, x);
    match first_left(scenario.words, x, scenario.masks, board, done) {
        Some(k) => Readiness::Waits(k),
        None => Readiness::Ready,
    }
}
