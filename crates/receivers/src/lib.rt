// The receivers that a table permits each sender, 16 bits a sender, and the first message of a walk that is forbidden: one look a message.
#![tactic(auto)]

ghost use Rattle.std.specs.Prelude.{◌≡◌, ◌*◌, ◌≤◌, length, take};
ghost use Rattle.model.specs.Limits.{rules_most, messages_most};
ghost use Rattle.model.specs.Bounded.{lowest};
ghost use Rattle.outcome.specs.Options.{found_in};
ghost use Rattle.board.specs.Boards.{BoardsBelow};
ghost use Rattle.coverage.specs.Rules.{rules_as};
ghost use Rattle.receivers.specs.Permitted.{Decided, PermittedTo, PermittedBy, is_forbidden_in};

use coverage::Rule;
use model::{BOARDS, RULES_MOST};

// A sender's permitted receivers with one rule more, ahead of those that gave them: of its own pairs the rule decides.
fn decided(receivers: u16, from: u16, to: u16, verdict: u8, sender: usize) -> u16
    ensures { Decided receivers from to verdict sender result }
{
    if !board_set::in_set(from, sender) {
        return receivers;
    }
    if verdict == 1 {
        receivers | to
    } else {
        receivers & !to
    }
}

// The receivers that the first `count` rules permit a sender. The last rule comes first, since the first one that has a pair decides.
fn receivers_of(rules: [Rule; RULES_MOST], count: usize, sender: usize) -> u16
    requires { count ≤ rules_most }
    ensures { PermittedTo (rules_as (take count rules)) sender result }
{
    let mut receivers = 0u16;
    for i in (0..count).rev() {
        let rule = rules[i];
        receivers = decided(receivers, rule.from, rule.to, rule.verdict, sender);
    }
    receivers
}

// The receivers that the first `count` rules permit each sender.
pub fn permitted_by(rules: [Rule; RULES_MOST], count: usize) -> [u16; BOARDS]
    requires { count ≤ rules_most }
    ensures { PermittedBy (rules_as (take count rules)) result }
{
    let mut permitted = [0u16; BOARDS];
    for sender in 0..BOARDS {
        permitted[sender] = receivers_of(rules, count, sender);
    }
    permitted
}

// The first of so many messages, in walk order, whose receiver is not permitted to its sender, if there is one.
pub fn first_forbidden(permitted: [u16; BOARDS], boards: &[u8], count: usize) -> Option<usize>
    requires count_le_messages_most { (count ≤ messages_most) × (2 * count ≤ length boards.now) }
    requires boards_below { BoardsBelow count boards.now }
    ensures { found_in result ≡ lowest count (is_forbidden_in permitted boards.now) }
{
    for m in 0..count {
        let send = 2 * m;
        let sender = board::board_of(boards, send);
        let receiver = board::board_of(boards, send + 1);
        if !board_set::in_set(permitted[sender], receiver) {
            return Some(m);
        }
    }
    None
}
