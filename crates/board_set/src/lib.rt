// Sets of boards, a bit for each board: whether a board is in a set, and a pair of boards in two.
#![tactic(auto)]

ghost use Rattle.std.specs.Prelude.{◌≡◌, ◌&&◌};
ghost use Rattle.model.specs.Senders.{in_set};

use model::BOARDS;

// The board is in the set.
pub fn in_set(set: u16, board: usize) -> bool
    ensures { result ≡ in_set set board }
{
    board < BOARDS && (set >> board) & 1 == 1
}

// The single-rule test: the pair of sender and receiver is in the rule of these two sets.
pub fn is_covered(from: u16, to: u16, sender: usize, receiver: usize) -> bool
    ensures { result ≡ (in_set from sender && in_set to receiver) }
{
    in_set(from, sender) && in_set(to, receiver)
}
