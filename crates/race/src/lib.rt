// The races of a scenario: the test of a message, a word of events at once.
#![tactic(auto)]

ghost use Rattle.std.specs.Prelude.{◌≡◌, cond, ◌+◌, ◌*◌, ◌<◌, ◌≤◌, eqb, length};
ghost use Rattle.model.specs.Limits.{channels, messages_most};
ghost use Rattle.model.specs.Race.{race_rule_of};
ghost use Rattle.relation.specs.Width.{width, word_bits};
ghost use Rattle.race.specs.Bridge.{rule_in};
ghost use Rattle.race.specs.Word.{OutsideWord, OnBoard, Within, BitsOn, RaceWord};

use at_or_before::reached_word;
use board::Scenario;
use relation::{SENDS, WIDTH, WORD_BITS};

// What must not be at or before e's send: the event itself, or its origin; on the lazy channels there are no races.
#[derive(Clone, Copy)]
pub enum Rule {
    ByEvent,
    ByOrigin,
    Never,
}

// The rules, by channel code.
const TABLE: [Rule; model::CHANNELS] = [
    Rule::ByEvent, // code 0, eager free-running
    Rule::Never, // code 1, lazy free-running
    Rule::ByOrigin, // code 2, eager FIFO
    Rule::Never, // code 3, lazy FIFO
    Rule::ByOrigin, // code 4, synchronous, eager
    Rule::ByOrigin, // code 5, token ring, eager
];

pub fn rule_of(code: usize) -> Rule
    requires { code < channels }
    ensures { rule_in result ≡ race_rule_of code }
{
    TABLE[code]
}

// Word w of the events that the rule does not find at or before e's send. By origin a receive is outside with its send.
fn outside_word(words: &[u64], rule: Rule, e: usize, w: usize) -> u64
    requires width_in_bounds { 2 * e * width + width ≤ length words.now }
    requires e_bound { (2 * e < word_bits * width) × (w < width) }
    ensures { OutsideWord words.now (rule_in rule) e w result }
{
    match rule {
        Rule::ByEvent => !reached_word(words, e, w),
        Rule::ByOrigin => {
            let sends = !reached_word(words, e, w) & SENDS;
            sends | (sends << 1)
        }
        Rule::Never => 0,
    }
}

// 1 where two boards are the same.
fn same(a: usize, b: usize) -> u64
    ensures { result ≡ cond (eqb a b) 1 0 }
{
    if a == b { 1 } else { 0 }
}

// The events from .. to - 1 that are on a board: bit b stands for event from + b.
fn on_board(boards: &[u8], board: usize, from: usize, to: usize) -> u64
    requires { to ≤ length boards.now }
    ensures { OnBoard boards.now board from to result }
{
    let mut on: u64 = 0;
    for x in (from..to).rev() {
        let one = same(board::board_of(boards, x), board);
        on = (on << 1) | one;
    }
    on
}

// A word without the bits of events after the last.
fn within(word: u64, w: usize, events: usize) -> u64
    requires { w < width }
    ensures { Within word w events result }
{
    let start = WORD_BITS * w;
    let end = start + WORD_BITS;
    if end <= events {
        return word;
    }
    if events <= start {
        return 0;
    }
    let few = events % WORD_BITS;
    word & ((1 << few) - 1)
}

// The bits of a word whose events are on a board. Of the boards only those from the lowest bit to the highest are looked at.
fn bits_on(word: u64, w: usize, boards: &[u8], events: usize, board: usize) -> u64
    requires { (w < width) × (word_bits * width ≤ length boards.now) }
    ensures { BitsOn word w boards.now events board result }
{
    let left = within(word, w, events);
    if left == 0 {
        return 0;
    }
    let lowest = left.trailing_zeros() as usize;
    let above = left.leading_zeros() as usize;
    let from = WORD_BITS * w + lowest;
    let to = WORD_BITS * w + WORD_BITS - above;
    let on = on_board(boards, board, from, to);
    left & (on << lowest)
}

// The races of message e in word w, where no masks were made. Nothing before e's receive stands outside unless e races: only then the boards are
// looked at.
pub fn race_word_unmasked(
    words: &[u64],
    boards: &[u8],
    count: usize,
    rule: Rule,
    e: usize,
    w: usize,
) -> u64
    requires width_in_bounds { (word_bits * width ≤ length boards.now) × (2 * count * width ≤ length words.now) }
    requires e_lt_count { (e < count) × (count ≤ messages_most) × (w < width) }
    ensures { RaceWord count boards.now words.now (rule_in rule) e w result }
{
    let receive = 2 * e + 1;
    let at = receive * WIDTH + w;
    let outside = outside_word(words, rule, e, w);
    let word = words[at] & outside;
    if word == 0 {
        return 0;
    }
    let own = board::board_of(boards, receive);
    bits_on(word, w, boards, 2 * count, own)
}

// The races of message e in word w: a bit is set exactly for each event there that races with e.
pub fn race_word(scenario: &Scenario, rule: Rule, e: usize, w: usize) -> u64
    requires { (e < scenario.now.count) × (w < width) }
    ensures { RaceWord scenario.now.count scenario.now.boards.now scenario.now.words.now (rule_in rule) e w result }
{
    let send = 2 * e;
    let receive = send + 1;
    let board = board::board_of(scenario.boards, receive);
    let before = receive * WIDTH + w;
    let on = board * WIDTH + w;
    let outside = outside_word(scenario.words, rule, e, w);
    scenario.words[before] & scenario.masks[on] & outside
}
