// The lowest event that is left and has nothing left before it, word by word.
#![tactic(auto)]

ghost use Rattle.std.specs.Prelude.{◌≡◌, ◌+◌, ◌*◌, ◌<◌, ◌≤◌, length};
ghost use Rattle.relation.specs.Width.{width, word_bits};
ghost use Rattle.model.specs.Bounded.{lowest};
ghost use Rattle.outcome.specs.Options.{found_in};
ghost use Rattle.free_event.specs.Free.{row_bits, is_free, FreeInWord};

use relation::{WIDTH, WORD_BITS};

// The lowest event of word w that is left and has nothing left before it.
fn free_in_word(words: &[u64], left: &[u64], w: usize) -> Option<usize>
    requires width_in_bounds { word_bits * width * width ≤ length words.now }
    requires w_lt_width { (w < width) × (width ≤ length left.now) }
    ensures { FreeInWord words.now left.now w result }
{
    let mut bits = left[w];
    // Not a `for`: each turn takes the lowest bit away, whichever that is.
    while bits != 0 {
        let bit = bits.trailing_zeros() as usize;
        let k = WORD_BITS * w + bit;
        if row_tests::none_of(words, k, left, 0) {
            return Some(k);
        }
        bits = bits & !(1 << bit);
    }
    None
}

// The lowest event that is left and has nothing left before it.
pub fn next_event(words: &[u64], left: &[u64]) -> Option<usize>
    requires width_in_bounds { word_bits * width * width ≤ length words.now }
    requires width_in_bounds_2 { width ≤ length left.now }
    ensures { found_in result ≡ lowest row_bits (is_free words.now left.now) }
{
    for w in 0..WIDTH {
        let found = free_in_word(words, left, w);
        if found.is_some() {
            return found;
        }
    }
    None
}
