// Whether a step is allowed: with a buffer, with the buffers in rows, and in a run.
#![tactic(auto)]

ghost use Rattle.std.specs.Prelude.{◌<◌};
ghost use Rattle.step.specs.Steps.{message_in};
ghost use Rattle.step_rules.specs.Steps.{Says};
ghost use Rattle.channel.specs.Steps.{SaysStep, SaysIn};

use board::Scenario;
use buffers::Parts;
use channel_table::Channel;
use relation::WIDTH;
use run::{Buffer, Run, board_at};
use step::Step;
use step_rules::{allowed_by, held_up};

// A step is allowed, by the parts of a run that it reads, with the buffer of its board.
pub fn allowed<'a>(
    scenario: &Scenario,
    c: Channel,
    done: &'a [u64; WIDTH],
    way: &'a [u64; WIDTH],
    buffer: Buffer,
    step: Step,
) -> bool
    requires step_bound { message_in step < scenario.now.count }
    ensures { SaysStep scenario.now.count scenario.now.boards.now scenario.now.words.now c done.now way.now buffer step result }
{
    !held_up(scenario.masks, c.eager, &buffer.held, 0, step)
        && allowed_by(scenario, c, done, way, &buffer.held, 0, step)
}

// The step is allowed, by the parts of a run, with its buffers in rows.
pub fn may_step(scenario: &Scenario, c: Channel, parts: &Parts, step: Step) -> bool
    requires step_bound { message_in step < scenario.now.count }
    ensures { SaysIn scenario.now.count scenario.now.boards.now scenario.now.words.now c parts.now.done.now parts.now.way.now parts.now.rows.now step result }
{
    let rows = parts.rows;
    let board = board_at(scenario.boards, step);
    !held_up(scenario.masks, c.eager, rows, board, step)
        && allowed_by(scenario, c, parts.done, parts.way, rows, board, step)
}

// The step is allowed in the run. For single use: each call copies the run. No step on an unknown message is allowed.
pub fn allowed_in(run: Run, scenario: &Scenario, c: Channel, step: Step) -> bool
    ensures { Says scenario.now.count scenario.now.boards.now scenario.now.words.now c run step result }
{
    let m = step.message();
    if scenario.count <= m {
        return false;
    }
    let board = board_at(scenario.boards, step);
    let buffer = run.buffers[board];
    allowed(scenario, c, &run.done, &run.way, buffer, step)
}
