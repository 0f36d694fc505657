// Where a run stands: finished, stuck or open.
#![tactic(auto)]

ghost use Rattle.std.specs.Prelude.{◌≡◌, ◌<◌, ◌≤◌};
ghost use Rattle.model.specs.Limits.{messages_most};
ghost use Rattle.model.specs.Run.{no_step};
ghost use Rattle.model.specs.Replay.{standing};
ghost use Rattle.board.specs.Scenarios.{scenario_of};
ghost use Rattle.channel_table.specs.Table.{channel_in};
ghost use Rattle.run.specs.State.{state_of};
ghost use Rattle.standing.specs.Bridge.{stand_in, all_done, SaysNoStep};

use board::Scenario;
use buffers::{HELD_WORDS, Parts};
use channel::may_step;
use channel_table::Channel;
use relation::WIDTH;
use run::Run;
use step::Step;

// All events done; no step allowed, and not all done; or a step allowed.
#[derive(Clone, Copy)]
pub enum Stand {
    Finished,
    Stuck,
    Open,
}

// All events are done.
fn is_finished(done: &[u64; WIDTH], count: usize) -> bool
    requires { count ≤ messages_most }
    ensures { result ≡ all_done count done.now }
{
    for m in 0..count {
        let send = 2 * m;
        let receive = send + 1;
        if !relation::test(done, 0, send) || !relation::test(done, 0, receive) {
            return false;
        }
    }
    true
}

// No step on message m is allowed, by the parts of a run.
fn is_held_up(scenario: &Scenario, c: Channel, parts: &Parts, m: usize) -> bool
    requires m_lt_count { m < scenario.now.count }
    ensures { SaysNoStep scenario.now.count scenario.now.boards.now scenario.now.words.now c parts.now.done.now parts.now.way.now parts.now.rows.now m result }
{
    let send = Step::Send(m);
    let deliver = Step::Deliver(m);
    let consume = Step::Consume(m);
    !may_step(scenario, c, parts, send)
        && !may_step(scenario, c, parts, deliver)
        && !may_step(scenario, c, parts, consume)
}

// No step is allowed.
fn has_no_step(run: Run, scenario: &Scenario, c: Channel) -> bool
    ensures { result ≡ no_step (scenario_of scenario.now) (channel_in c) (state_of run) }
{
    let mut rows = [0u64; HELD_WORDS];
    buffers::lay_rows(&mut rows, run);
    let parts = Parts {
        done: &run.done,
        way: &run.way,
        rows: &rows,
    };
    for m in 0..scenario.count {
        if !is_held_up(scenario, c, &parts, m) {
            return false;
        }
    }
    true
}

// Finished is asked first: in a finished run no step is allowed either.
pub fn stand_of(run: Run, scenario: &Scenario, c: Channel) -> Stand
    ensures { stand_in result ≡ standing (scenario_of scenario.now) (channel_in c) (state_of run) }
{
    if is_finished(&run.done, scenario.count) {
        return Stand::Finished;
    }
    if has_no_step(run, scenario, c) {
        return Stand::Stuck;
    }
    Stand::Open
}
