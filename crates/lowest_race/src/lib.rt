// The race named: the lowest message that races, and the lowest event that it races with.
#![tactic(auto)]

ghost use Rattle.std.specs.Prelude.{◌≡◌, ◌<◌};
ghost use Rattle.model.specs.Race.{lowest_event, lowest_race};
ghost use Rattle.outcome.specs.Options.{found_in};
ghost use Rattle.relation.specs.Scenario.{scenario_in};
ghost use Rattle.board.specs.Scenarios.{scenario_of};
ghost use Rattle.at_or_before.specs.Lent.{Lent};
ghost use Rattle.race.specs.Bridge.{rule_in};

use board::Scenario;
use race::{Rule, race_word};
use relation::{WIDTH, WORD_BITS};

// The lowest event that races with a message, if one does.
fn lowest_event(scenario: &Scenario, rule: Rule, e: usize) -> Option<usize>
    requires { e < scenario.now.count }
    ensures { found_in result ≡ lowest_event (scenario_of scenario.now) (rule_in rule) e }
{
    for w in 0..WIDTH {
        let word = race_word(scenario, rule, e, w);
        if word != 0 {
            return Some(WORD_BITS * w + u64::trailing_zeros(word) as usize);
        }
    }
    None
}

// The lowest message that races, and the event.
fn lowest_message(scenario: &Scenario, rule: Rule) -> Option<(usize, usize)>
    ensures { found_in result ≡ lowest_race (scenario_of scenario.now) (rule_in rule) }
{
    for e in 0..scenario.count {
        if let Some(x) = lowest_event(scenario, rule, e) {
            return Some((e, x));
        }
    }
    None
}

// A message and the event that it races with, if one does. On a channel without races no masks are made.
pub fn lowest_race(words: &[u64], boards: &[u8], count: usize, rule: Rule) -> Option<(usize, usize)>
    requires { Lent count boards.now words.now }
    ensures { found_in result ≡ lowest_race (scenario_in count boards.now words.now) (rule_in rule) }
{
    if let Rule::Never = rule {
        return None;
    }
    let mut masks = [0u64; board::MASK_WORDS];
    board::board_masks(boards, count, &mut masks);
    let scenario = Scenario {
        words,
        masks: &masks,
        boards,
        count,
    };
    lowest_message(&scenario, rule)
}
