// All races of a scenario, by e and then x: counted, and as many of them as an output holds written there, two numbers each.
#![tactic(auto)]

ghost use Rattle.std.specs.Prelude.{◌≡◌, ◌+◌, ◌*◌, ◌<◌, ◌≤◌, length, set};
ghost use Rattle.std.specs.Int.Count.{ones, count_trailing_zeros};
ghost use Rattle.model.specs.Holdings.{races_of, races_below};
ghost use Rattle.relation.specs.Width.{word_bits};
ghost use Rattle.relation.specs.Scenario.{scenario_in};
ghost use Rattle.board.specs.Scenarios.{scenario_of};
ghost use Rattle.at_or_before.specs.Lent.{Lent};
ghost use Rattle.race.specs.Bridge.{rule_in};
ghost use Rattle.race_list.specs.Listing.{row_bits, races_most, bits_listed, Adds, Tells};

use board::Scenario;
use race::{Rule, race_word};
use relation::WORD_BITS;

// The numbers of a race.
const NUMBERS: usize = 2;

// How many races there are, and how many of them stand in the output.
#[derive(Clone, Copy)]
pub struct Told {
    pub all: usize,
    pub listed: usize,
}

fn count_bits(word: u64) -> usize
    ensures value { result ≡ ones word }
    ensures upper_bound { result ≤ word_bits }
{
    word.count_ones() as usize
}

// The event of a word's lowest bit.
fn lowest_event(word: u64, first: usize) -> u16
    requires { first ≤ row_bits }
    ensures { result ≡ first + count_trailing_zeros word_bits word }
{
    let bit = word.trailing_zeros() as usize;
    (first + bit) as u16
}

// A race at its place.
fn put_race(output: &mut [u16], at: usize, e: u16, x: u16)
    requires { 2 * at + 1 < length output.old }
    ensures { output.new ≡ set (set output.old (2 * at) e) (2 * at + 1) x }
{
    let message = NUMBERS * at;
    let event = message + 1;
    output[message] = e;
    output[event] = x;
}

// The races of message e in one word, whose lowest bit is event `first`. Where the output is full they are only counted.
fn list_word(word: u64, e: u16, first: usize, output: &mut [u16], found: usize) -> usize
    requires { (first ≤ row_bits) × (found ≤ races_most) }
    ensures { Adds (bits_listed word e first word_bits) output.old found output.new result }
{
    let room = output.len() / NUMBERS;
    let mut rest = word;
    let mut at = found;
    // Not a `for`: where the bits end first, the place behind the last race is handed on.
    while at < room {
        if rest == 0 {
            return at;
        }
        let x = lowest_event(rest, first);
        put_race(output, at, e, x);
        rest = rest & (rest - 1);
        at += 1;
    }
    at + count_bits(rest)
}

// The races of one message, in the words that the events reach.
fn list_message(
    scenario: &Scenario,
    rule: Rule,
    e: usize,
    output: &mut [u16],
    found: usize,
) -> usize
    requires { (e < scenario.now.count) × (found ≤ row_bits * e) }
    ensures { Adds (races_of (scenario_of scenario.now) (rule_in rule) e (2 * scenario.now.count)) output.old found output.new result }
{
    let number = e as u16;
    let used = (2 * scenario.count + WORD_BITS - 1) / WORD_BITS;
    let mut at = found;
    for w in 0..used {
        let word = race_word(scenario, rule, e, w);
        at = list_word(word, number, WORD_BITS * w, output, at);
    }
    at
}

// The races of all messages; how many they are.
fn list_messages(scenario: &Scenario, rule: Rule, output: &mut [u16]) -> usize
    ensures { Adds (races_below (scenario_of scenario.now) (rule_in rule) scenario.now.count) output.old 0 output.new result }
{
    let mut found = 0;
    for e in 0..scenario.count {
        found = list_message(scenario, rule, e, output, found);
    }
    found
}

// All races of the rule. On a channel without races no masks are made.
pub fn list_races(
    words: &[u64],
    boards: &[u8],
    count: usize,
    rule: Rule,
    output: &mut [u16],
) -> Told
    requires { Lent count boards.now words.now }
    ensures { Tells (races_below (scenario_in count boards.now words.now) (rule_in rule) count) output.old output.new result }
{
    if let Rule::Never = rule {
        return Told { all: 0, listed: 0 };
    }
    let mut masks = [0u64; board::MASK_WORDS];
    board::board_masks(boards, count, &mut masks);
    let scenario = Scenario {
        words,
        masks: &masks,
        boards,
        count,
    };
    let all = list_messages(&scenario, rule, output);
    let listed = (output.len() / NUMBERS).min(all);
    Told { all, listed }
}
