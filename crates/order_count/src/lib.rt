// The P rows of a cured sheet, counted by words.
#![tactic(auto)]

ghost use Rattle.std.specs.Prelude.{◌≡◌, ◌+◌, ◌*◌, ◌<◌, ◌≤◌, length};
ghost use Rattle.model.specs.Limits.{messages_most};
ghost use Rattle.model.specs.Bounded.{how_many};
ghost use Rattle.relation.specs.Width.{width, word_bits};
ghost use Rattle.relation.specs.Rows.{has, holds};
ghost use Rattle.order_count.specs.Orders.{orders_to};

use relation::{WIDTH, WORD_BITS};

// How many events a word has.
fn count_word(word: u64) -> usize
    ensures value { result ≡ how_many word_bits (has word) }
    ensures upper_bound { result ≤ word_bits }
{
    word.count_ones() as usize
}

// How many events it has among its first few.
fn count_first(word: u64, few: usize) -> usize
    requires { few < word_bits }
    ensures value { result ≡ how_many few (has word) }
    ensures upper_bound { result ≤ few }
{
    (word & ((1 << few) - 1)).count_ones() as usize
}

// How many events stand directly before e's send: the row of its receive holds them. No bit behind the last event counts.
fn count_before(words: &[u64], count: usize, e: usize) -> usize
    requires e_lt_count { (e < count) × (count ≤ messages_most) }
    requires width_in_bounds { 2 * count * width ≤ length words.now }
    ensures value { result ≡ how_many (2 * count) (holds width words.now (2 * e + 1)) }
    ensures upper_bound { result ≤ 2 * count }
{
    let events = 2 * count;
    let receive = 2 * e + 1;
    let from = receive * WIDTH;
    let whole = events / WORD_BITS;
    let mut found = 0;
    for i in 0..whole {
        let at = from + i;
        found = found + count_word(words[at]);
    }
    let few = events % WORD_BITS;
    if few == 0 {
        return found;
    }
    let last = from + whole;
    found + count_first(words[last], few)
}

// The P rows of a cured sheet, counted: the rows of the receives hold what stands directly before the sends.
pub fn count_orders(words: &[u64], count: usize) -> usize
    requires count_le_messages_most { count ≤ messages_most }
    requires width_in_bounds { 2 * count * width ≤ length words.now }
    ensures value { result ≡ length (orders_to words.now count (2 * count)) }
    ensures upper_bound { result ≤ messages_most * (2 * count) }
{
    let mut found = 0;
    for e in 0..count {
        found = found + count_before(words, count, e);
    }
    found
}
