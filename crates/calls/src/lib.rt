// What a row that calls does: whether it is a ninth A row, the sheet that it calls, and the A rows met behind it.
#![tactic(auto)]

ghost use Rattle.std.specs.Prelude.{◌≡◌, false, ◌<◌, length, get_or};
ghost use Rattle.model.specs.Limits.{rows_most};
ghost use Rattle.levels.specs.Options.{is_ninth, sheet_called, choices_behind};

use levels::takes_second;
use walk::Walk;

// An A row behind the eighth: refusal 13.
#[tactic(auto, unfolding(levels::specs::Options::is_ninth))]
pub fn is_ninth(letter: u8, choices: usize) -> bool
    ensures { result ≡ is_ninth letter choices }
{
    letter == b'A' && Walk::CHOICES_MOST <= choices
}

// The sheet that a row calls, with so many A rows met: an A row's is its first, or its second where its option says so.
#[tactic(auto, unfolding(levels::specs::Options::is_ninth, levels::specs::Options::sheet_called, model::specs::Expansion::taken))]
pub fn called_sheet(
    letter: u8,
    one: &[u16],
    two: &[u16],
    row: usize,
    options: usize,
    choices: usize,
) -> u16
    requires choices_value { is_ninth letter choices ≡ false }
    requires row_lt_rows_most { (row < rows_most) × (row < length one.now) × (row < length two.now) }
    ensures { result ≡ sheet_called letter (get_or one.now row 0) (get_or two.now row 0) options choices }
{
    if letter == b'A' && takes_second(options, choices) {
        two[row]
    } else {
        one[row]
    }
}

// The A rows met behind a call.
#[tactic(auto, unfolding(levels::specs::Options::is_ninth, levels::specs::Options::choices_behind, model::specs::Expansion::chosen_more))]
pub fn choices_behind(letter: u8, choices: usize) -> usize
    requires { is_ninth letter choices ≡ false }
    ensures { result ≡ choices_behind letter choices }
{
    if letter == b'A' { choices + 1 } else { choices }
}
