// The state of a run behind a step: the events done, the messages under way, and what the receiver's buffer holds.
#![tactic(auto)]

ghost use Rattle.std.specs.Prelude.{◌<◌};
ghost use Rattle.model.specs.Limits.{messages_most};
ghost use Rattle.step.specs.Steps.{step_in, message_in};
ghost use Rattle.run.specs.State.{Reaches};
ghost use Rattle.next_state.specs.Behind.{DoneBehind, WayBehind, HeldBehind, NextRun};

use relation::WIDTH;
use run::{Run, target_of};
use step::Step;

// The events done, as a step leaves them: a send is done when sent, a receive when consumed.
pub fn done_behind(done: &mut [u64; WIDTH], step: Step)
    requires { message_in step < messages_most }
    ensures { DoneBehind done.old step done.new }
{
    let send = 2 * step.message();
    let receive = send + 1;
    match step {
        Step::Send(_) => relation::mark(done, 0, send),
        Step::Deliver(_) => {}
        Step::Consume(_) => relation::mark(done, 0, receive),
    }
}

// The messages under way, as a step leaves them: one sent goes under way, and one delivered leaves the channel.
pub fn way_behind(way: &mut [u64; WIDTH], step: Step)
    requires { message_in step < messages_most }
    ensures { WayBehind way.old step way.new }
{
    let send = 2 * step.message();
    match step {
        Step::Send(_) => relation::mark(way, 0, send),
        Step::Deliver(_) => relation::unmark(way, 0, send),
        Step::Consume(_) => {}
    }
}

// What the receiver's buffer holds, as a step leaves it: a message delivered enters it, and one consumed leaves it.
pub fn held_behind(held: &mut [u64; WIDTH], step: Step)
    requires { message_in step < messages_most }
    ensures { HeldBehind held.old step held.new }
{
    let send = 2 * step.message();
    match step {
        Step::Send(_) => {}
        Step::Deliver(_) => relation::mark(held, 0, send),
        Step::Consume(_) => relation::unmark(held, 0, send),
    }
}

// The run behind a step. For single use: each call copies the run. Where one step follows another, the same lines stand in place.
pub fn next(mut run: Run, boards: &[u8], step: Step) -> Run
    requires { Reaches boards.now step }
    ensures { NextRun boards.now run (step_in step) result }
{
    let target = target_of(boards, step);
    done_behind(&mut run.done, step);
    way_behind(&mut run.way, step);
    held_behind(&mut run.buffers[target].held, step);
    run
}
