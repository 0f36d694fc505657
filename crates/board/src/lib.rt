// Which events are on which board: the board of an event, and the masks of the boards.
#![tactic(auto)]

mod masks;

ghost use Rattle.std.specs.Prelude.{◌≡◌, ◌<◌, length, get_or};
ghost use Rattle.board.specs.Masks.{Standing};

pub use crate::masks::{MASK_WORDS, SENDS, board_masks};

// A scenario, as the rules read it: so many messages, the board of each event, the rows of the causal order and the masks of the boards.
#[derive(Clone, Copy)]
pub struct Scenario<'a> {
    pub words: &'a [u64],
    pub masks: &'a [u64],
    pub boards: &'a [u8],
    pub count: usize,
    ghost standing: { Standing count boards.now words.now masks.now },
}

// The board of event x.
pub fn board_of(boards: &[u8], x: usize) -> usize
    requires { x < length boards.now }
    ensures { result ≡ get_or boards.now x 0 }
{
    usize::from(boards[x])
}
