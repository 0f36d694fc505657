// The buffers of a run in rows of words, a row a board: what the search for a step reads without a copy of the run.
#![tactic(auto)]

ghost use Rattle.std.specs.Prelude.{◌<◌};
ghost use Rattle.board.specs.Boards.{boards_most};
ghost use Rattle.buffers.specs.Held.{HeldIn, LaysRow};

use relation::WIDTH;
use run::{Buffer, Run};

// The words of all buffers, a row a board.
pub const HELD_WORDS: usize = model::BOARDS * WIDTH;

// The parts of a run that a search for a step reads: what is done, what is under way, and its buffers in rows.
#[derive(Clone, Copy)]
pub struct Parts<'a> {
    pub done: &'a [u64; WIDTH],
    pub way: &'a [u64; WIDTH],
    pub rows: &'a [u64; HELD_WORDS],
}

// A board's row becomes its buffer's.
pub fn lay_row(rows: &mut [u64; HELD_WORDS], board: usize, buffer: Buffer)
    requires { board < boards_most }
    ensures { LaysRow rows.old board buffer.held rows.new }
{
    joined_rows::copy_from(rows, board, &buffer.held, 0);
}

// The rows become the buffers of a run. They are lent: an array handed back is copied once more.
pub fn lay_rows(rows: &mut [u64; HELD_WORDS], run: Run)
    ensures { HeldIn run rows.new }
{
    for board in 0..model::BOARDS {
        lay_row(rows, board, run.buffers[board]);
    }
}
