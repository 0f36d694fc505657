// The race search of a job, spread over its turns: a turn looks at half a row of one message.
#![tactic(auto)]

ghost use Rattle.std.specs.Prelude.{◌≡◌, ◌&&◌, ◌*◌, ◌<◌, ◌≤◌, length};
ghost use Rattle.model.specs.Limits.{messages_most};
ghost use Rattle.model.specs.Bounded.{lowest};
ghost use Rattle.model.specs.Order.{event};
ghost use Rattle.model.specs.Race.{is_race};
ghost use Rattle.outcome.specs.Options.{found_in};
ghost use Rattle.relation.specs.Width.{width, word_bits};
ghost use Rattle.relation.specs.Scenario.{scenario_in};
ghost use Rattle.race.specs.Bridge.{rule_in};
ghost use Rattle.share.specs.Search.{in_words, share_of, Looks};

use race::Rule;
use relation::{WIDTH, WORD_BITS};

// The words of a row that the first of a message's two turns looks at.
const HALF: usize = WIDTH / 2;

// What the search has found so far: nothing where `found` is 0, else the race named.
#[repr(C)]
#[derive(Clone, Copy)]
pub struct Race {
    pub found: u32,
    pub message: u32,
    pub event: u32,
}

// The lowest event that races with message e, among those of words from .. to - 1 of a row.
fn lowest_between(
    words: &[u64],
    boards: &[u8],
    count: usize,
    rule: Rule,
    e: usize,
    from: usize,
    to: usize,
) -> Option<usize>
    requires width_in_bounds { (word_bits * width ≤ length boards.now) × (2 * count * width ≤ length words.now) }
    requires e_lt_count { (e < count) × (count ≤ messages_most) × (to ≤ width) }
    ensures { found_in result ≡ lowest (2 * count) (λ x. in_words from to x && is_race (scenario_in count boards.now words.now) (rule_in rule) e (event x)) }
{
    for w in from..to {
        let word = race::race_word_unmasked(words, boards, count, rule, e, w);
        if word != 0 {
            return Some(WORD_BITS * w + word.trailing_zeros() as usize);
        }
    }
    None
}

// The share of turn t: the lowest event that races with message t / 2, in the half of its row that the turn looks at.
fn share(words: &[u64], boards: &[u8], count: usize, rule: Rule, t: usize) -> Option<usize>
    requires width_in_bounds { (word_bits * width ≤ length boards.now) × (2 * count * width ≤ length words.now) }
    requires t_bound { (t < 2 * count) × (count ≤ messages_most) }
    ensures { found_in result ≡ share_of (scenario_in count boards.now words.now) (rule_in rule) t }
{
    let e = t / 2;
    if t % 2 == 0 {
        return lowest_between(words, boards, count, rule, e, 0, HALF);
    }
    lowest_between(words, boards, count, rule, e, HALF, WIDTH)
}

// What the search of a job has found, behind its turn t. A race found stays; what no job can hold is left as it is.
pub fn looked(
    earlier: Race,
    words: &[u64],
    boards: &[u8; model::EVENTS_MOST],
    count: usize,
    code: usize,
    t: usize,
) -> Race
    requires { length words.now ≡ 2 * messages_most * width }
    ensures { Looks count boards.now words.now code t earlier result }
{
    if earlier.found != 0 {
        return earlier;
    }
    if model::MESSAGES_MOST < count {
        return earlier;
    }
    if model::CHANNELS <= code {
        return earlier;
    }
    if 2 * count <= t {
        return earlier;
    }
    let rule = race::rule_of(code);
    match share(words, boards, count, rule, t) {
        None => earlier,
        Some(x) => Race {
            found: 1,
            message: (t / 2) as u32,
            event: x as u32,
        },
    }
}
