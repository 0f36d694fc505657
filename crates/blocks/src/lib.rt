// What a walk collects in words: a message met, a P row met, a block closed.
#![tactic(auto)]

ghost use Rattle.std.specs.Prelude.{◌≡◌, ◌+◌, ◌*◌, ◌<◌, ◌≤◌, length};
ghost use Rattle.model.specs.Limits.{boards as boards_most, messages_most};
ghost use Rattle.relation.specs.Width.{width};
ghost use Rattle.closure.specs.Insertion.{inserted};
ghost use Rattle.blocks.specs.Store.{store_of, boards_with, added, passed};
ghost use Rattle.blocks.specs.Room.{Room};

use relation::WIDTH;

// The words of the past: a row a board.
pub const PAST: usize = model::BOARDS * WIDTH;

// Message m is met, from board a to board b: both events are behind their board's past, and the receive behind its send.
pub fn add_message(boards: &mut [u8], words: &mut [u64], past: &[u64], m: usize, a: u16, b: u16)
    requires boards_len { length boards.old ≡ 2 * messages_most }
    requires words_len { length words.old ≡ 2 * messages_most * width }
    requires past_len { length past.now ≡ boards_most * width }
    requires m_lt_messages_most { m < messages_most }
    requires a_lt_boards_most { a < boards_most }
    requires b_lt_boards_most { b < boards_most }
    ensures { (boards.new ≡ boards_with boards.old m a b) × (words.new ≡ added width words.old past.now m a b) }
{
    let send = 2 * m;
    let receive = send + 1;
    boards[send] = a as u8;
    boards[receive] = b as u8;
    joined_rows::copy_from(words, send, past, a as usize);
    joined_rows::copy_from(words, receive, past, b as usize);
    joined_rows::join(words, receive, send);
    relation::mark(words, receive, send);
}

// A P row is met: its events are numbered from the open block's first message on.
pub fn add_order(words: &mut [u64], first: usize, count: usize, x: u16, y: u16)
    requires words_len { length words.old ≡ 2 * messages_most * width }
    requires count_le_messages_most { count ≤ messages_most }
    requires x_bound { (2 * first + x < 2 * count) × (2 * first + y < 2 * count) }
    ensures { words.new ≡ inserted width words.old (2 * first + x) (2 * first + y) (2 * first) (2 * count) }
{
    let base = 2 * first;
    closure::insert(words, base + x as usize, base + y as usize, base, 2 * count);
}

// The open block is closed: each of its events is past on its board, with all before it.
pub fn close_block(boards: &[u8], words: &[u64], past: &mut [u64], first: usize, count: usize)
    requires { Room first count (store_of boards.now words.now past.old) }
    ensures { past.new ≡ passed width past.old boards.now words.now (2 * first) (2 * count) }
{
    for e in 2 * first..2 * count {
        let board = boards[e] as usize;
        joined_rows::join_from(past, board, words, e);
        relation::mark(past, board, e);
    }
}
