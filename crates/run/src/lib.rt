// The state of a run, and the boards of a step.
#![tactic(auto)]

ghost use Rattle.std.specs.Prelude.{◌*◌, ◌<◌};
ghost use Rattle.model.specs.Limits.{messages_most};
ghost use Rattle.run.specs.State.{Without, Starts, Reaches, BoardAt, TargetOf};

use board::board_of;
use relation::WIDTH;
use step::Step;

// The messages that a board's buffer holds, as bits of their sends.
#[repr(C)]
#[derive(Clone, Copy)]
pub struct Buffer {
    pub held: [u64; WIDTH],
}

// The state of a run: the events done, the messages under way as bits of their sends, and each board's buffer.
#[repr(C)]
#[derive(Clone, Copy)]
pub struct Run {
    pub done: [u64; WIDTH],
    pub way: [u64; WIDTH],
    pub buffers: [Buffer; model::BOARDS],
}

// The row without event x.
pub fn without(row: [u64; WIDTH], x: usize) -> [u64; WIDTH]
    requires { x < 2 * messages_most }
    ensures { Without row x result }
{
    let mut rest = row;
    relation::unmark(&mut rest, 0, x);
    rest
}

// The board on which a step is taken: the sender's, or to deliver or to consume the receiver's.
pub fn board_at(boards: &[u8], step: Step) -> usize
    requires { Reaches boards.now step }
    ensures { BoardAt boards.now step result }
{
    let x = step.event();
    board_of(boards, x)
}

// The board that a step's message goes to.
pub fn target_of(boards: &[u8], step: Step) -> usize
    requires { Reaches boards.now step }
    ensures { TargetOf boards.now step result }
{
    let receive = 2 * step.message() + 1;
    board_of(boards, receive)
}

impl Run {
    // No event done, nothing under way, all buffers empty.
    pub fn start() -> Self
        ensures { Starts result }
    {
        Run {
            done: [0; WIDTH],
            way: [0; WIDTH],
            buffers: [Buffer { held: [0; WIDTH] }; model::BOARDS],
        }
    }
}
