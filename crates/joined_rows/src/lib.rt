// Rows of the relation joined and copied: a row gains another one, or becomes one of other words.
#![tactic(auto)]

ghost use Rattle.std.specs.Prelude.{◌≡◌, ◌+◌, ◌*◌, ◌≤◌, length};
ghost use Rattle.relation.specs.Width.{width};
ghost use Rattle.joined_rows.specs.Joins.{joined, joined_from, copied_from};

use relation::WIDTH;

// Every predecessor of event `from` becomes one of event `to`.
pub fn join(words: &mut [u64], to: usize, from: usize)
    requires width_in_bounds { to * width + width ≤ length words.old }
    requires width_in_bounds_2 { from * width + width ≤ length words.old }
    ensures { words.new ≡ joined width words.old to from }
{
    let into = to * WIDTH;
    let out = from * WIDTH;
    for i in 0..WIDTH {
        let at = into + i;
        let seen = out + i;
        words[at] = words[at] | words[seen];
    }
}

// The same, where row `from` stands in other words.
pub fn join_from(words: &mut [u64], to: usize, other: &[u64], from: usize)
    requires width_in_bounds { to * width + width ≤ length words.old }
    requires width_in_bounds_2 { from * width + width ≤ length other.now }
    ensures { words.new ≡ joined_from width words.old to other.now from }
{
    let into = to * WIDTH;
    let out = from * WIDTH;
    for k in 0..WIDTH {
        let at = into + k;
        let seen = out + k;
        words[at] = words[at] | other[seen];
    }
}

// Row `to` becomes row `from` of other words.
pub fn copy_from(words: &mut [u64], to: usize, other: &[u64], from: usize)
    requires width_in_bounds { to * width + width ≤ length words.old }
    requires width_in_bounds_2 { from * width + width ≤ length other.now }
    ensures { words.new ≡ copied_from width words.old to other.now from }
{
    let into = to * WIDTH;
    let out = from * WIDTH;
    for j in 0..WIDTH {
        let at = into + j;
        let seen = out + j;
        words[at] = other[seen];
    }
}
