// The masks of the boards, made message by message.
ghost use Rattle.std.specs.Prelude.{◌≡◌, ◌*◌, ◌<◌, ◌≤◌, length};
ghost use Rattle.model.specs.Limits.{messages_most};
ghost use Rattle.relation.specs.Width.{width};
ghost use Rattle.board.specs.Boards.{boards_most, BoardsBelow};
ghost use Rattle.board.specs.Masks.{mask_rows, masks_with, MasksOf};

use crate::board_of;
use relation::WIDTH;

// A row for each mask: the events on a board; behind those, the sends to a board; last, all sends.
const MASK_ROWS: usize = 2 * model::BOARDS + 1;

pub const MASK_WORDS: usize = MASK_ROWS * WIDTH;

// The row of all sends.
pub const SENDS: usize = 2 * model::BOARDS;

// The masks with message m besides, from one board to another.
fn mask_message(masks: &mut [u64], m: usize, source: usize, target: usize)
    requires width_in_bounds { mask_rows * width ≤ length masks.old }
    requires m_lt_messages_most { m < messages_most }
    requires source_lt_boards_most { source < boards_most }
    requires target_lt_boards_most { target < boards_most }
    ensures { masks.new ≡ masks_with masks.old m source target }
{
    let send = 2 * m;
    let receive = send + 1;
    let to = model::BOARDS + target;
    relation::mark(masks, source, send);
    relation::mark(masks, target, receive);
    relation::mark(masks, to, send);
    relation::mark(masks, SENDS, send);
}

// The masks of `count` messages, whose events are on the boards given.
pub fn board_masks(boards: &[u8], count: usize, masks: &mut [u64])
    requires count_le_messages_most { count ≤ messages_most }
    requires count_in_bounds { 2 * count ≤ length boards.now }
    requires width_in_bounds { mask_rows * width ≤ length masks.old }
    requires boards_below { BoardsBelow count boards.now }
    ensures { MasksOf count boards.now masks.new }
{
    relation::clear(masks, MASK_WORDS);
    for m in 0..count {
        let send = 2 * m;
        let receive = send + 1;
        let source = board_of(boards, send);
        let target = board_of(boards, receive);
        mask_message(masks, m, source, target);
    }
}
