// Where a row may stand (refusal 6). The table of starts says which sheets are open, the boards those of the open block's events.
#![tactic(auto)]

ghost use Rattle.std.specs.Prelude.{◌≡◌, cond, ◌&&◌, ◌+◌, ◌*◌, ◌≤◌, ◌<◌, ltb, length, take, set};
ghost use Rattle.model.specs.Limits.{sheets, rows_most, messages_most};
ghost use Rattle.model.specs.Place.{message_fits, order_fits};
ghost use Rattle.place.specs.Letters.{row_from};
ghost use Rattle.place.specs.Stand.{may_open, stand_of, OtherThanS, BlockAs, PlaceAs};

use model::{EVENTS_MOST, MESSAGES_MOST, SHEETS};

// Boards are 0 to 15, in the type of a field.
const BOARDS: u16 = model::BOARDS as u16;

// `S n`, as row `row`: sheets 0 to 31, each at most once.
fn open_sheet(row: usize, n: u16, start: &mut [u16; SHEETS]) -> bool
    requires { (row < rows_most) × (length start.old ≡ sheets) }
    ensures value { result ≡ may_open start.old n }
    ensures start_after { start.new ≡ cond result (set start.old n (row + 1)) start.old }
{
    let k = n as usize;
    if SHEETS <= k || start[k] != 0 {
        return false;
    }
    start[k] = (row + 1) as u16;
    true
}

// `M a b`: boards 0 to 15, and no message too many for the block.
fn add_message(messages: usize, boards: &mut [u8; EVENTS_MOST], a: u16, b: u16) -> bool
    requires { (messages ≤ messages_most) × (length boards.old ≡ 2 * messages_most) }
    ensures value { result ≡ message_fits (take (2 * messages) boards.old) a b }
    ensures boards_after { boards.new ≡ cond result (set (set boards.old (2 * messages) a) (2 * messages + 1) b) boards.old }
{
    if BOARDS <= a || BOARDS <= b || MESSAGES_MOST <= messages {
        return false;
    }
    let send = 2 * messages;
    let receive = send + 1;
    boards[send] = a as u8;
    boards[receive] = b as u8;
    true
}

// `P x y`: both events are there, differ, and are on one board.
fn may_order(messages: usize, boards: &[u8; EVENTS_MOST], x: u16, y: u16) -> bool
    requires { (messages ≤ messages_most) × (length boards.now ≡ 2 * messages_most) }
    ensures { result ≡ order_fits (take (2 * messages) boards.now) x y }
{
    let i = x as usize;
    let j = y as usize;
    let events = 2 * messages;
    if events <= i || events <= j || i == j {
        return false;
    }
    boards[i] == boards[j]
}

// The two sheets of an A row: 0 to 31, as a call's.
fn are_sheets(m: u16, n: u16) -> bool
    ensures { result ≡ (ltb m sheets && ltb n sheets) }
{
    (m as usize) < SHEETS && (n as usize) < SHEETS
}

// A row that is no S row, in a block of so many messages: a message joins the block, an order is within it, any other opens the next.
// The messages of the open block behind the row; nothing where a rule is broken.
fn in_block(
    kind: u8,
    one: u16,
    two: u16,
    messages: usize,
    boards: &mut [u8; EVENTS_MOST],
) -> Option<usize>
    requires { OtherThanS kind × (messages ≤ messages_most) × (length boards.old ≡ 2 * messages_most) }
    ensures { BlockAs messages (row_from kind one two) boards.old boards.new result }
{
    match kind {
        b'M' => add_message(messages, boards, one, two).then_some(messages + 1),
        b'P' => may_order(messages, boards, one, two).then_some(messages),
        b'C' => ((one as usize) < SHEETS).then_some(0),
        b'A' => are_sheets(one, two).then_some(0),
        _ => Some(0),
    }
}

// A row of the given kind and numbers, as row `row`: every row but an S row stands behind one. The messages of the open block behind it;
// nothing where a rule is broken.
pub fn place(
    row: usize,
    kind: u8,
    one: u16,
    two: u16,
    messages: usize,
    start: &mut [u16; SHEETS],
    boards: &mut [u8; EVENTS_MOST],
) -> Option<usize>
    requires { (row < rows_most) × (messages ≤ messages_most) × (length start.old ≡ sheets) × (length boards.old ≡ 2 * messages_most) }
    ensures { PlaceAs row (stand_of start.old boards.old messages) (row_from kind one two) start.new boards.new result }
{
    if kind == b'S' {
        return open_sheet(row, one, start).then_some(0);
    }
    if row == 0 {
        return None;
    }
    in_block(kind, one, two, messages, boards)
}
