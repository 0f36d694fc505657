// The withholding schedule for a message, step by step, and its trace, two bytes a step.
#![tactic(auto)]

ghost use Rattle.std.specs.Prelude.{◌≡◌, ◌+◌, ◌*◌, ◌<◌, ◌≤◌, length, set};
ghost use Rattle.model.specs.Limits.{messages_most};
ghost use Rattle.model.specs.Schedule.{kind_of};
ghost use Rattle.board.specs.Scenarios.{scenario_of};
ghost use Rattle.channel_table.specs.Table.{channel_in};
ghost use Rattle.step.specs.Steps.{step_in, message_in};
ghost use Rattle.schedule.specs.Schedule.{Scheduled};

use board::Scenario;
use buffers::{HELD_WORDS, Parts, lay_row};
use channel_table::Channel;
use next_state::{done_behind, held_behind, way_behind};
use next_step::choose;
use relation::WIDTH;
use run::{Run, target_of};
use step::Step;

// Step i of the trace: its kind and its message.
fn write_step(trace: &mut [u8], i: usize, step: Step)
    requires i_in_bounds { 2 * i + 1 < length trace.old }
    requires step_bound { message_in step < messages_most }
    ensures { trace.new ≡ set (set trace.old (2 * i) (kind_of (step_in step))) (2 * i + 1) (message_in step) }
{
    let at = 2 * i;
    let behind = at + 1;
    let message = step.message();
    trace[at] = step.kind();
    trace[behind] = message as u8;
}

// The schedule for e on a channel, written into the trace: the number of its steps. Three steps a message are always enough. The run is one
// value, and each step changes it in place. Beside it stands what the search reads of its buffers: a row for each, laid from it, and what they hold
// together.
pub fn schedule(scenario: &Scenario, c: Channel, e: usize, trace: &mut [u8]) -> usize
    requires e_lt_count { e < scenario.now.count }
    requires count_in_bounds { 2 * (3 * scenario.now.count) ≤ length trace.old }
    ensures { Scheduled (scenario_of scenario.now) (channel_in c) e trace.old trace.new result }
{
    let mut run = Run::start();
    let mut rows = [0u64; HELD_WORDS];
    let mut held = [0u64; WIDTH];
    for i in 0..3 * scenario.count {
        let parts = Parts {
            done: &run.done,
            way: &run.way,
            rows: &rows,
        };
        let Some(step) = choose(scenario, c, &parts, &held, e) else {
            return i;
        };
        write_step(trace, i, step);
        let target = target_of(scenario.boards, step);
        done_behind(&mut run.done, step);
        way_behind(&mut run.way, step);
        held_behind(&mut held, step);
        held_behind(&mut run.buffers[target].held, step);
        lay_row(&mut rows, target, run.buffers[target]);
    }
    3 * scenario.count
}
