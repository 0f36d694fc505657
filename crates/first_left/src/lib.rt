// The lowest event of a row that is in a mask and not done, word by word.
#![tactic(auto)]

ghost use Rattle.std.specs.Prelude.{◌≡◌, ◌+◌, ◌*◌, ◌≤◌, length};
ghost use Rattle.model.specs.Bounded.{lowest};
ghost use Rattle.outcome.specs.Options.{found_in};
ghost use Rattle.relation.specs.Width.{width, word_bits};
ghost use Rattle.first_left.specs.Left.{left_of};

use relation::{WIDTH, WORD_BITS};

// The lowest event of row y that is in the mask and not done, by trailing zeros, word by word.
pub fn first_left(
    words: &[u64],
    y: usize,
    masks: &[u64],
    mask: usize,
    done: &[u64],
) -> Option<usize>
    requires width_in_bounds { y * width + width ≤ length words.now }
    requires width_in_bounds_2 { mask * width + width ≤ length masks.now }
    requires width_in_bounds_3 { width ≤ length done.now }
    ensures { found_in result ≡ lowest (word_bits * width) (left_of width words.now y masks.now mask done.now) }
{
    let row = y * WIDTH;
    let board = mask * WIDTH;
    for i in 0..WIDTH {
        let at = row + i;
        let by = board + i;
        let left = words[at] & masks[by] & !done[i];
        if left != 0 {
            return Some(WORD_BITS * i + left.trailing_zeros() as usize);
        }
    }
    None
}
