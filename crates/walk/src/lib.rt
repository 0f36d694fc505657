// The rows of one block, as a walk comes to them. Refusal 10.
#![tactic(auto)]

ghost use Rattle.std.specs.Prelude.{◌≡◌, ◌≤◌, length};
ghost use Rattle.blocks.specs.Store.{store_of};
ghost use Rattle.walk.specs.Block.{fresh, opened, state_of, rows_from, in_block, RowsFew, Ready, Leaves, block_walked};

use outcome::{Reason, Refusal};
use sheet::Rows;

// How far a walk is: calls made, A rows met, the number of the open block's first message, and messages met.
#[derive(Clone, Copy)]
pub struct Walk {
    pub calls: usize,
    pub choices: usize,
    pub first: usize,
    pub count: usize,
}

impl Walk {
    pub const CALLS_MOST: usize = model::CALLS_MOST;

    pub const CHOICES_MOST: usize = model::CHOICES_MOST;

    pub const MESSAGES_MOST: usize = model::MESSAGES_MOST;

    // Nothing is met yet.
    pub fn fresh() -> Walk
        ensures { result ≡ fresh }
    {
        Walk {
            calls: 0,
            choices: 0,
            first: 0,
            count: 0,
        }
    }

    // A block is open, and none of its messages is met yet.
    pub fn opened(calls: usize, choices: usize, met: usize) -> Walk
        ensures { result ≡ opened calls choices met }
    {
        Walk {
            calls,
            choices,
            first: met,
            count: met,
        }
    }
}

// Where the rows of a block end: the row behind them, and the walk there.
#[derive(Clone, Copy)]
pub struct Walked {
    pub row: usize,
    pub walk: Walk,
}

// A row of a block, M or P.
#[tactic(auto, unfolding(crate::specs::Block::in_block))]
pub fn in_block(kind: &[u8], rows: usize, row: usize) -> bool
    requires { rows ≤ length kind.now }
    ensures { result ≡ in_block kind.now rows row }
{
    row < rows && (kind[row] == b'M' || kind[row] == b'P')
}

// The rows of one block from a row on: each is met, with refusal 10 at the first message too many; then the block is closed, and the next is open.
#[tactic(auto, unfolding(crate::specs::Block::in_block))]
pub fn walk_block(
    rows: &Rows,
    boards: &mut [u8],
    words: &mut [u64],
    past: &mut [u64],
    row: usize,
    walk: Walk,
) -> Result<Walked, Refusal>
    requires rows_few { RowsFew rows.now.kind.now rows.now.one.now rows.now.two.now rows.now.count }
    requires ready { Ready rows.now.kind.now rows.now.one.now rows.now.two.now rows.now.count row walk.first walk.count (store_of boards.old words.old past.old) }
    ensures { Leaves result (store_of boards.new words.new past.new) (block_walked (rows_from rows.now.kind.now rows.now.one.now rows.now.two.now rows.now.count row) row (state_of walk (store_of boards.old words.old past.old))) }
{
    let first = walk.first;
    let mut at = row;
    let mut met = walk.count;
    // No `for`: where the rows of the block end is what the loop finds.
    while in_block(rows.kind, rows.count, at) {
        if rows.kind[at] == b'P' {
            blocks::add_order(words, first, met, rows.one[at], rows.two[at]);
            at += 1;
            continue;
        }
        if Walk::MESSAGES_MOST <= met {
            return Err(Reason::Messages.at(at + model::FIRST_LINE));
        }
        blocks::add_message(boards, words, past, met, rows.one[at], rows.two[at]);
        met += 1;
        at += 1;
    }
    blocks::close_block(boards, words, past, first, met);
    Ok(Walked {
        row: at,
        walk: Walk::opened(walk.calls, walk.choices, met),
    })
}
