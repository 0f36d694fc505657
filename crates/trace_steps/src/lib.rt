// The steps of a trace from another tool, gone through by the step rules: finished, stuck, still open, or the first step that is not
// allowed; and on stuck, which event each board waits for.
#![tactic(auto)]

ghost use Rattle.std.specs.Prelude.{◌≡◌, ◌+◌, ◌*◌, ◌%◌, ◌<◌, ◌≤◌, length};
ghost use Rattle.model.specs.Limits.{trace_least};
ghost use Rattle.board.specs.Scenarios.{scenario_of};
ghost use Rattle.channel_table.specs.Table.{channel_in};
ghost use Rattle.run.specs.State.{state_of};
ghost use Rattle.trace_steps.specs.Bridge.{StepAt, Unwaited, Stood, Taken};

use board::Scenario;
use channel::allowed;
use channel_table::Channel;
use next_state::{done_behind, held_behind, way_behind};
use run::{Run, board_at, target_of};
use standing::Stand;
use step::Step;
use waits::waits_of;

// The verdict: finished, stuck or open; or the index, from 0, of the first step that is not allowed.
#[derive(Clone, Copy)]
pub enum Replay {
    Finished,
    Stuck,
    Open,
    NotAllowed(usize),
}

// The verdict, and the event that each board waits for.
#[derive(Clone, Copy)]
pub struct Outcome {
    pub verdict: Replay,
    pub waits: [u16; model::BOARDS],
}

// A verdict on which no board waits.
pub fn unwaited(verdict: Replay) -> Outcome
    ensures { Unwaited verdict result }
{
    Outcome {
        verdict,
        waits: [model::NO_WAIT; model::BOARDS],
    }
}

// The verdict on a trace that is at its end. On stuck alone does a board wait.
fn stood(run: Run, scenario: &Scenario, c: Channel) -> Outcome
    ensures { Stood (scenario_of scenario.now) (channel_in c) (state_of run) result }
{
    match standing::stand_of(run, scenario, c) {
        Stand::Finished => unwaited(Replay::Finished),
        Stand::Stuck => Outcome {
            verdict: Replay::Stuck,
            waits: waits_of(run, scenario),
        },
        Stand::Open => unwaited(Replay::Open),
    }
}

// Step i of a trace, two bytes a step. A wrong kind, or a message that the walk has not, is no step.
fn step_at(trace: &[u8], i: usize, count: usize) -> Option<Step>
    requires { 2 * i + 1 < length trace.now }
    ensures { StepAt trace.now i count result }
{
    let at = 2 * i;
    let behind = at + 1;
    let m = usize::from(trace[behind]);
    if count <= m {
        return None;
    }
    Step::told(usize::from(trace[at]), m)
}

// The steps of a trace, from the start on. The run is one value, and each step changes it in place.
pub fn take_steps(scenario: &Scenario, c: Channel, trace: &[u8]) -> Outcome
    requires trace_len { (length trace.now % 2 ≡ 0) × (length trace.now ≤ trace_least) }
    ensures { Taken (scenario_of scenario.now) (channel_in c) trace.now result }
{
    let mut run = Run::start();
    for i in 0..trace.len() / 2 {
        let Some(s) = step_at(trace, i, scenario.count) else {
            return unwaited(Replay::NotAllowed(i));
        };
        let own = run.buffers[board_at(scenario.boards, s)];
        if !allowed(scenario, c, &run.done, &run.way, own, s) {
            return unwaited(Replay::NotAllowed(i));
        }
        let target = target_of(scenario.boards, s);
        done_behind(&mut run.done, s);
        way_behind(&mut run.way, s);
        held_behind(&mut run.buffers[target].held, s);
    }
    stood(run, scenario, c)
}
