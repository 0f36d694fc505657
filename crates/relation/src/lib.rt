// Rows of words: row y holds the predecessors of event y, WIDTH words a row, an event a bit.
#![tactic(auto)]

ghost use Rattle.std.specs.Prelude.{◌≡◌, ◌+◌, ◌*◌, ◌<◌, ◌≤◌, length};
ghost use Rattle.relation.specs.Width.{width, word_bits};
ghost use Rattle.relation.specs.Rows.{holds, marked, unmarked, cleared};

// The words of a row: the model's limit, as the specs' `width` is.
pub const WIDTH: usize = model::ROW_WORDS;

// The bits of a word.
pub const WORD_BITS: usize = 64;

// The bits of the sends in a word: those of the even events.
pub const SENDS: u64 = 0x5555555555555555;

// Event x is a predecessor of event y.
pub fn test(words: &[u64], y: usize, x: usize) -> bool
    requires width_in_bounds { y * width + width ≤ length words.now }
    requires x_bound { x < word_bits * width }
    ensures { result ≡ holds width words.now y x }
{
    let at = y * WIDTH + x / WORD_BITS;
    (words[at] >> (x % WORD_BITS)) & 1 == 1
}

// Event x becomes a predecessor of event y.
pub fn mark(words: &mut [u64], y: usize, x: usize)
    requires width_in_bounds { y * width + width ≤ length words.old }
    requires x_bound { x < word_bits * width }
    ensures { words.new ≡ marked width words.old y x }
{
    let at = y * WIDTH + x / WORD_BITS;
    words[at] = words[at] | (1 << (x % WORD_BITS));
}

// Event x is no longer a predecessor of event y.
pub fn unmark(words: &mut [u64], y: usize, x: usize)
    requires width_in_bounds { y * width + width ≤ length words.old }
    requires x_bound { x < word_bits * width }
    ensures { words.new ≡ unmarked width words.old y x }
{
    let at = y * WIDTH + x / WORD_BITS;
    words[at] = words[at] & !(1 << (x % WORD_BITS));
}

// The first `count` words become zero.
pub fn clear(words: &mut [u64], count: usize)
    requires { count ≤ length words.old }
    ensures { words.new ≡ cleared count words.old }
{
    for i in 0..count {
        words[i] = 0;
    }
}
