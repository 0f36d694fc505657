// The relation kept closed while events are put before others, and the lowest event that came before itself.
#![tactic(auto)]

ghost use Rattle.std.specs.Prelude.{◌≡◌, ◌+◌, ◌*◌, ◌<◌, ◌≤◌, length};
ghost use Rattle.model.specs.Bounded.{lowest};
ghost use Rattle.outcome.specs.Options.{found_in};
ghost use Rattle.relation.specs.Width.{width, word_bits};
ghost use Rattle.relation.specs.Own.{is_own};
ghost use Rattle.closure.specs.Insertion.{inserted};

// Event x is put before event y, and so before every event behind y, among the rows from .. to - 1. The relation is kept closed:
// where x is before y already, that is all done.
pub fn insert(words: &mut [u64], x: usize, y: usize, from: usize, to: usize)
    requires width_in_bounds { x * width + width ≤ length words.old }
    requires width_in_bounds_2 { y * width + width ≤ length words.old }
    requires width_in_bounds_3 { to * width ≤ length words.old }
    requires x_bound { x < word_bits * width }
    requires y_bound { y < word_bits * width }
    ensures { words.new ≡ inserted width words.old x y from to }
{
    if relation::test(words, y, x) {
        return;
    }
    for b in from..to {
        if b == y || relation::test(words, b, y) {
            joined_rows::join(words, b, x);
            relation::mark(words, b, x);
        }
    }
}

// The lowest event that is its own predecessor, if one is.
pub fn lowest_own(words: &[u64], rows: usize) -> Option<usize>
    requires width_in_bounds { rows * width ≤ length words.now }
    requires rows_bound { rows ≤ word_bits * width }
    ensures { found_in result ≡ lowest rows (is_own width words.now) }
{
    for event in 0..rows {
        if relation::test(words, event, event) {
            return Some(event);
        }
    }
    None
}
