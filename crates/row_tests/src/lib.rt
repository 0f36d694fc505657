// Tests of rows, word by word: whether an event of a row is in a mask and among those given.
#![tactic(auto)]

ghost use Rattle.std.specs.Prelude.{◌≡◌, ◌+◌, ◌*◌, ◌≤◌, length};
ghost use Rattle.relation.specs.Width.{width, word_bits};
ghost use Rattle.run.specs.State.{in_row};
ghost use Rattle.row_tests.specs.Tests.{none_of_row, none_in};

use relation::WIDTH;

// No event of row y is both in the mask and among those given.
pub fn apart(words: &[u64], y: usize, masks: &[u64], mask: usize, given: &[u64]) -> bool
    requires width_in_bounds { y * width + width ≤ length words.now }
    requires width_in_bounds_2 { mask * width + width ≤ length masks.now }
    requires width_in_bounds_3 { width ≤ length given.now }
    ensures { result ≡ none_of_row (word_bits * width) width words.now y masks.now mask (in_row given.now) }
{
    let row = y * WIDTH;
    let board = mask * WIDTH;
    for i in 0..WIDTH {
        let at = row + i;
        let by = board + i;
        if words[at] & masks[by] & given[i] != 0 {
            return false;
        }
    }
    true
}

// No event of the mask is in row y of those given.
pub fn none_of(masks: &[u64], mask: usize, given: &[u64], y: usize) -> bool
    requires width_in_bounds { mask * width + width ≤ length masks.now }
    requires width_in_bounds_2 { y * width + width ≤ length given.now }
    ensures { result ≡ none_in (word_bits * width) width masks.now mask given.now y }
{
    let board = mask * WIDTH;
    let row = y * WIDTH;
    for i in 0..WIDTH {
        let by = board + i;
        let at = row + i;
        if masks[by] & given[at] != 0 {
            return false;
        }
    }
    true
}
