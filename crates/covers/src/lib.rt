// What stands directly before each send in the cured order, in words. The row of a message's receive, which the cured order does not need,
// becomes that of the events directly before its send, on its board.
#![tactic(auto)]

ghost use Rattle.std.specs.Prelude.{◌≡◌, ◌+◌, ◌*◌, ◌<◌, ◌≤◌, length, get_or};
ghost use Rattle.model.specs.Limits.{messages_most};
ghost use Rattle.relation.specs.Width.{width, word_bits};
ghost use Rattle.covers.specs.Covers.{RowOf, hidden_by, hidden_at, Hidden, CoverWord, cover_at, Sheet, CoverRows};

use board::Scenario;
use relation::{SENDS, WIDTH, WORD_BITS};

// All that is before the send is hidden, where it is one of the sheet's.
fn hide_by(words: &[u64], hidden: &mut [u64], count: usize, send: usize)
    requires count_le_messages_most { (count ≤ messages_most) × (2 * count * width ≤ length words.now) }
    requires width_in_bounds { width ≤ length hidden.old }
    ensures { hidden.new ≡ hidden_by words.now count send hidden.old }
{
    let events = 2 * count;
    if send < events {
        joined_rows::join_from(hidden, 0, words, send);
    }
}

// Each send in word i of e's row hides all that is before it: from send to send by trailing zeros.
fn hide_word(words: &[u64], hidden: &mut [u64], count: usize, e: usize, i: usize)
    requires e_lt_count { (e < count) × (count ≤ messages_most) }
    requires width_in_bounds { (2 * count * width ≤ length words.now) × (i < width) }
    requires hidden { Hidden words.now count e (word_bits * i) hidden.old }
    ensures { Hidden words.now count e (word_bits * (i + 1)) hidden.new }
{
    let at = 2 * e * WIDTH + i;
    let sends = words[at] & SENDS;
    let mut bit = 0;
    // Not a `for`: it goes from send to send, not from bit to bit.
    while bit < WORD_BITS {
        let left = sends >> bit;
        if left == 0 {
            return;
        }
        let here = bit + left.trailing_zeros() as usize;
        hide_by(words, hidden, count, WORD_BITS * i + here);
        bit = here + 1;
    }
}

// What is before a send that is before e's send.
fn hidden_from(words: &[u64], count: usize, e: usize) -> [u64; WIDTH]
    requires e_lt_count { (e < count) × (count ≤ messages_most) }
    requires width_in_bounds { 2 * count * width ≤ length words.now }
    ensures { RowOf (hidden_at words.now count e) result }
{
    let mut hidden = [0u64; WIDTH];
    for i in 0..WIDTH {
        hide_word(words, &mut hidden, count, e, i);
    }
    hidden
}

// Of a word of e's row: what is not hidden, nor the send of a receive in the row, and is on the board of the mask.
fn cover_word(row: u64, hidden: u64, mask: u64) -> u64
    ensures { CoverWord row hidden mask result }
{
    let sent = (row >> 1) & SENDS;
    row & !(hidden | sent) & mask
}

// Word i of the events on the board of e's send.
fn mask_word(scenario: &Scenario, e: usize, i: usize) -> u64
    requires { (e < scenario.now.count) × (i < width) }
    ensures { result ≡ get_or scenario.now.masks.now (get_or scenario.now.boards.now (2 * e) 0 * width + i) 0 }
{
    let send = 2 * e;
    let board = board::board_of(scenario.boards, send);
    let at = board * WIDTH + i;
    scenario.masks[at]
}

// The events directly before e's send, on its board.
fn cover(scenario: &Scenario, e: usize) -> [u64; WIDTH]
    requires { e < scenario.now.count }
    ensures { RowOf (cover_at scenario.now.words.now scenario.now.boards.now scenario.now.count e) result }
{
    let hidden = hidden_from(scenario.words, scenario.count, e);
    let send = 2 * e;
    let from = send * WIDTH;
    let mut row = [0u64; WIDTH];
    for i in 0..WIDTH {
        let at = from + i;
        let mask = mask_word(scenario, e, i);
        row[i] = cover_word(scenario.words[at], hidden[i], mask);
    }
    row
}

// The row of each receive becomes the events directly before its send.
pub fn cover_rows(words: &mut [u64], boards: &[u8], count: usize)
    requires { Sheet count boards.now words.old }
    ensures { CoverRows count boards.now words.old words.new }
{
    let mut masks = [0u64; board::MASK_WORDS];
    board::board_masks(boards, count, &mut masks);
    for e in 0..count {
        let scenario = Scenario {
            words: &*words,
            masks: &masks,
            boards,
            count,
        };
        let row = cover(&scenario, e);
        let receive = 2 * e + 1;
        joined_rows::copy_from(words, receive, &row, 0);
    }
}
