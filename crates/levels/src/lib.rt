// What a walk over the levels of calls reads at a row: its letter, the option of an A row, and where a called sheet starts.
#![tactic(auto)]

ghost use Rattle.std.specs.Prelude.{◌≡◌, false, ◌<◌, ◌≤◌, length, get_or};
ghost use Rattle.model.specs.Limits.{choices_most};
ghost use Rattle.levels.specs.Options.{options_of};
ghost use Rattle.levels.specs.Letters.{letter_at};

use walk::Walk;

// The letter of a row. Behind the last it is an S: the file's end ends its last sheet.
#[tactic(auto, unfolding(crate::specs::Letters::letter_at))]
pub fn letter_at(kind: &[u8], rows: usize, row: usize) -> u8
    requires { rows ≤ length kind.now }
    ensures { result ≡ letter_at kind.now rows row }
{
    if row < rows { kind[row] } else { b'S' }
}

// The option of A row k, from 0: it takes n.
pub fn takes_second(options: usize, k: usize) -> bool
    requires { k < choices_most }
    ensures { result ≡ get_or (options_of options) k false }
{
    let behind = Walk::CHOICES_MOST - 1 - k;
    (options >> behind) & 1 == 1
}

// The row behind the S row of a sheet that is there.
pub fn start_of(start: &[u16], sheet: u16) -> usize
    requires { sheet < length start.now }
    ensures { result ≡ get_or start.now sheet 0 }
{
    start[sheet as usize] as usize
}
