// Which event each board waits for, where a run is stuck.
#![tactic(auto)]

ghost use Rattle.std.specs.Prelude.{◌≡◌, ◌<◌};
ghost use Rattle.model.specs.Waits.{wait_of, each_board};
ghost use Rattle.board.specs.Scenarios.{scenario_of};
ghost use Rattle.board.specs.Boards.{boards_most};
ghost use Rattle.run.specs.State.{state_of};
ghost use Rattle.waits.specs.Bridge.{SaysHeld, SaysWait};

use board::Scenario;
use next_message::next_in;
use readiness::Readiness;
use relation::WIDTH;
use run::{Buffer, Run};

// The readiness of message m's receive, if the buffer holds m. A message that it does not hold keeps no board waiting.
fn held_readiness(scenario: &Scenario, done: &[u64; WIDTH], buffer: Buffer, m: usize) -> Readiness
    requires m_lt_count { m < scenario.now.count }
    ensures { SaysHeld scenario.now.count scenario.now.boards.now scenario.now.words.now done.now buffer m result }
{
    let send = 2 * m;
    if !relation::test(&buffer.held, 0, send) {
        return Readiness::Ready;
    }
    let receive = send + 1;
    readiness::readiness_of(scenario, done, receive)
}

// The event that the lowest message of the buffer whose receive is unready waits for.
fn wait_at(scenario: &Scenario, done: &[u64; WIDTH], buffer: Buffer) -> u16
    ensures { SaysWait scenario.now.count scenario.now.boards.now scenario.now.words.now done.now buffer result }
{
    // Not a `for`: it steps on to the next message that the buffer holds.
    let mut m = next_in(&buffer.held, 0);
    while m < scenario.count {
        let readiness = held_readiness(scenario, done, buffer, m);
        match readiness {
            Readiness::Ready => {}
            Readiness::Done => return model::NO_WAIT,
            Readiness::Waits(k) => return k as u16,
        }
        if m + 1 == scenario.count {
            return model::NO_WAIT;
        }
        m = next_in(&buffer.held, m + 1);
    }
    model::NO_WAIT
}

// The event that each board waits for, board by board.
pub fn waits_of(run: Run, scenario: &Scenario) -> [u16; model::BOARDS]
    ensures { result ≡ each_board boards_most (wait_of (scenario_of scenario.now) (state_of run)) }
{
    let done = run.done;
    let mut waits = [model::NO_WAIT; model::BOARDS];
    for b in 0..model::BOARDS {
        let buffer = run.buffers[b];
        waits[b] = wait_at(scenario, &done, buffer);
    }
    waits
}
