// The events at or before another: one at a time, and a word of those at or before a send at once.
#![tactic(auto)]

ghost use Rattle.std.specs.Prelude.{◌≡◌, ◌+◌, ◌*◌, ◌<◌, ◌≤◌, length};
ghost use Rattle.model.specs.Order.{event, at_or_before};
ghost use Rattle.relation.specs.Width.{width, word_bits};
ghost use Rattle.relation.specs.Scenario.{scenario_in};
ghost use Rattle.at_or_before.specs.Lent.{Lent};
ghost use Rattle.at_or_before.specs.Reached.{ReachedWord};

use relation::{WIDTH, WORD_BITS};

// Event x is event y, or before it.
pub fn at_or_before(words: &[u64], boards: &[u8], count: usize, x: usize, y: usize) -> bool
    requires lent { Lent count boards.now words.now }
    requires x_bound { (x < 2 * count) × (y < 2 * count) }
    ensures { result ≡ at_or_before (scenario_in count boards.now words.now) (event x) (event y) }
{
    if x == y {
        return true;
    }
    relation::test(words, y, x)
}

// Word w of the events at or before e's send: its row, and the send itself.
pub fn reached_word(words: &[u64], e: usize, w: usize) -> u64
    requires width_in_bounds { 2 * e * width + width ≤ length words.now }
    requires e_bound { (2 * e < word_bits * width) × (w < width) }
    ensures { ReachedWord words.now e w result }
{
    let send = 2 * e;
    let at = send * WIDTH + w;
    if w != send / WORD_BITS {
        return words[at];
    }
    words[at] | (1 << (send % WORD_BITS))
}
