// What the step rules ask beside readiness: that a board is free, and the further conditions of the channel.
#![tactic(auto)]

ghost use Rattle.std.specs.Prelude.{◌≡◌, ◌+◌, ◌*◌, ◌<◌, ◌≤◌, length};
ghost use Rattle.model.specs.Limits.{messages_most};
ghost use Rattle.relation.specs.Width.{width};
ghost use Rattle.board.specs.Boards.{boards_most};
ghost use Rattle.board.specs.Masks.{mask_rows};
ghost use Rattle.rules.specs.Rules.{free_in, SaysSendRule, SaysDeliverRule};

use board::SENDS;
use channel_table::{ToDeliver, ToSend};
use relation::WIDTH;
use row_tests::{apart, none_of};
use run::without;

// An eager board sends, or takes a delivery, only while its buffer, row y of those held, holds nothing.
pub fn board_free(masks: &[u64], eager: bool, held: &[u64], y: usize) -> bool
    requires width_in_bounds { mask_rows * width ≤ length masks.now }
    requires width_in_bounds_2 { y * width + width ≤ length held.now }
    ensures { result ≡ free_in eager masks.now held.now y }
{
    !eager || none_of(masks, SENDS, held, y)
}

// The further condition to send m.
pub fn send_rule(words: &[u64], masks: &[u64], rule: ToSend, way: &[u64; WIDTH], m: usize) -> bool
    requires m_lt_messages_most { m < messages_most }
    requires width_in_bounds { (2 * m + 1) * width + width ≤ length words.now }
    requires width_in_bounds_2 { mask_rows * width ≤ length masks.now }
    ensures { SaysSendRule words.now masks.now rule way.now m result }
{
    match rule {
        ToSend::Always => true,
        ToSend::NoEarlierUnderWay => apart(words, 2 * m + 1, masks, SENDS, way),
        ToSend::ChannelEmpty => none_of(masks, SENDS, way, 0),
    }
}

// The further condition to deliver m to its board.
pub fn deliver_rule(
    words: &[u64],
    masks: &[u64],
    rule: ToDeliver,
    way: &[u64; WIDTH],
    target: usize,
    m: usize,
) -> bool
    requires m_lt_messages_most { m < messages_most }
    requires target_lt_boards_most { target < boards_most }
    requires width_in_bounds { 2 * m * width + width ≤ length words.now }
    requires width_in_bounds_2 { mask_rows * width ≤ length masks.now }
    ensures { SaysDeliverRule words.now masks.now rule way.now target m result }
{
    let send = 2 * m;
    match rule {
        ToDeliver::Always => true,
        ToDeliver::InOrder => {
            let others = without(*way, send);
            let toward = model::BOARDS + target;
            apart(words, send, masks, toward, &others)
        }
        ToDeliver::Alone => {
            let others = without(*way, send);
            none_of(masks, SENDS, &others, 0)
        }
    }
}
