// The order of the open block, kept closed in words as its rows are read: refusal 11 is judged by it.
#![tactic(auto)]

ghost use Rattle.std.specs.Prelude.{◌≡◌, ◌*◌, ◌<◌, ◌≤◌, length};
ghost use Rattle.model.specs.Limits.{messages_most};
ghost use Rattle.model.specs.Rows.{order};
ghost use Rattle.relation.specs.Width.{width};
ghost use Rattle.place.specs.Letters.{row_from};
ghost use Rattle.block_order.specs.Noted.{begun, Within, NotedAs};

// Message m of the block is read: its send is put before its receive. Both rows are made anew, so that nothing of an earlier block is
// left in them, and the words may be lent with any content.
fn add_message(words: &mut [u64], m: usize)
    requires { (length words.old ≡ 2 * messages_most * width) × (m < messages_most) }
    ensures { words.new ≡ begun width words.old m }
{
    let nothing = [0u64; relation::WIDTH];
    let send = 2 * m;
    let receive = send + 1;
    joined_rows::copy_from(words, send, &nothing, 0);
    joined_rows::copy_from(words, receive, &nothing, 0);
    relation::mark(words, receive, send);
}

// `P x y`, in a block of so many messages: where y is before x, the row would put x before itself; else x is put before y.
// Kept out of line: in line, the reader of a sheet has no register left for y's bit and loads it at each event, one instruction of ten.
#[inline(never)]
fn add_order(words: &mut [u64], messages: usize, x: u16, y: u16) -> bool
    requires { (length words.old ≡ 2 * messages_most * width) × (messages ≤ messages_most) × (x < 2 * messages) × (y < 2 * messages) }
    ensures { NotedAs words.old messages (order x y) words.new result }
{
    let first = x as usize;
    let second = y as usize;
    if relation::test(words, first, second) {
        return true;
    }
    closure::insert(words, first, second, 0, 2 * messages);
    false
}

// A row that has its place, in a block of so many messages: whether it puts an event before itself; and the order behind it.
pub fn note(kind: u8, one: u16, two: u16, messages: usize, words: &mut [u64]) -> bool
    requires { (length words.old ≡ 2 * messages_most * width) × (messages ≤ messages_most) × Within messages (row_from kind one two) }
    ensures { NotedAs words.old messages (row_from kind one two) words.new result }
{
    if kind == b'M' {
        add_message(words, messages);
        return false;
    }
    if kind == b'P' {
        return add_order(words, messages, one, two);
    }
    false
}
