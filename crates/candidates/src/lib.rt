// The messages that the search of a class looks at: those whose step can be allowed at all.
#![tactic(auto)]

ghost use Rattle.std.specs.Prelude.{◌+◌, ◌*◌, ◌<◌, ◌≤◌, length};
ghost use Rattle.model.specs.Limits.{messages_most};
ghost use Rattle.relation.specs.Width.{width};
ghost use Rattle.candidates.specs.Candidates.{Exactly, is_unsent, is_needed, is_needed_delivery, is_own, is_candidate};

use relation::{SENDS, WIDTH};
use step_classes::Class;

// The sends that are not done.
fn unsent(done: [u64; WIDTH]) -> [u64; WIDTH]
    ensures { Exactly (is_unsent done) result }
{
    let mut rest = done;
    for i in 0..WIDTH {
        rest[i] = !rest[i] & SENDS;
    }
    rest
}

// The events of a row that are e's send or before it.
fn needed(words: &[u64], e: usize, row: [u64; WIDTH]) -> [u64; WIDTH]
    requires { (e < messages_most) × (2 * e * width + width ≤ length words.now) }
    ensures { Exactly (is_needed words.now e row) result }
{
    let send = 2 * e;
    let from = send * WIDTH;
    let mut kept = row;
    for i in 0..WIDTH {
        let at = from + i;
        kept[i] &= words[at];
    }
    if relation::test(&row, 0, send) {
        relation::mark(&mut kept, 0, send);
    }
    kept
}

// Of the messages under way, those whose receive is before e's send.
fn needed_deliveries(words: &[u64], e: usize, way: [u64; WIDTH]) -> [u64; WIDTH]
    requires { (e < messages_most) × (2 * e * width + width ≤ length words.now) }
    ensures { Exactly (is_needed_delivery words.now e way) result }
{
    let from = 2 * e * WIDTH;
    let mut kept = way;
    for i in 0..WIDTH {
        let at = from + i;
        kept[i] &= words[at] >> 1;
    }
    kept
}

// Message e, if it is under way.
fn own_delivery(way: &[u64; WIDTH], e: usize) -> [u64; WIDTH]
    requires { e < messages_most }
    ensures { Exactly (is_own way.now e) result }
{
    let send = 2 * e;
    let mut own = [0u64; WIDTH];
    if relation::test(way, 0, send) {
        relation::mark(&mut own, 0, send);
    }
    own
}

// The messages whose step of the class can be allowed at all, as bits of their sends: in a buffer, under way, or not yet sent.
pub fn candidates<'a>(
    words: &[u64],
    done: &'a [u64; WIDTH],
    way: &'a [u64; WIDTH],
    held: &'a [u64; WIDTH],
    e: usize,
    class: Class,
) -> [u64; WIDTH]
    requires { (e < messages_most) × (2 * e * width + width ≤ length words.now) }
    ensures { Exactly (is_candidate words.now done.now way.now held.now e class) result }
{
    match class {
        Class::AnyConsume => *held,
        Class::DeliveryOf => own_delivery(way, e),
        Class::NeededDelivery => needed_deliveries(words, e, *way),
        Class::AnyDelivery => *way,
        Class::NeededSend => needed(words, e, unsent(*done)),
        Class::AnySend => unsent(*done),
    }
}
