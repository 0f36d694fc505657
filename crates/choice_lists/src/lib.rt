// The way through all choice lists of a file, in their order: each is walked, and its scenario tested for a race while no lock is known.
#![tactic(auto)]

ghost use Rattle.std.specs.Prelude.{◌≡◌, ◌+◌, ◌-◌, ◌*◌, ◌^◌, ◌<◌, ◌≤◌, length};
ghost use Rattle.model.specs.Limits.{channels, choices_most, lists_most, messages_most};
ghost use Rattle.model.specs.Race.{lowest_race};
ghost use Rattle.relation.specs.Width.{width};
ghost use Rattle.relation.specs.Scenario.{scenario_in};
ghost use Rattle.sheet.specs.Columns.{rows_in};
ghost use Rattle.at_or_before.specs.Lent.{Lent};
ghost use Rattle.race.specs.Bridge.{rule_in};
ghost use Rattle.expansion.specs.Lent.{AreLent};
ghost use Rattle.choice_lists.specs.Walked.{first_from, WalkedAs};

use outcome::Refusal;
use race::Rule;
use sheet::Rows;

// The lists of eight options are numbers, A row 0 the highest bit, so that they come in their order. This many is behind the last.
pub const LISTS: usize = 1 << model::CHOICES_MOST;

// All lists were walked: the last one's number, its messages, which are in boards and words, the A rows that it met, and the number of
// the first locked list ahead of it, if there is one.
#[derive(Clone, Copy)]
pub struct Walked {
    pub list: usize,
    pub messages: usize,
    pub met: usize,
    pub first: Option<usize>,
}

// Where the list behind one of so many options begins.
fn next_list(list: usize, met: usize) -> usize
    requires { (list < lists_most) × (met ≤ choices_most) }
    ensures { result ≡ list + 2 ^ (choices_most - met) }
{
    let left = model::CHOICES_MOST - met;
    list + (1 << left)
}

// The first locked list: the one known, or else this one, if its scenario has a race.
fn first_locked(
    words: &[u64],
    boards: &[u8],
    count: usize,
    rule: Rule,
    first: Option<usize>,
    list: usize,
) -> Option<usize>
    requires { Lent count boards.now words.now }
    ensures { result ≡ first_from first list (lowest_race (scenario_in count boards.now words.now) (rule_in rule)) }
{
    if first.is_some() {
        return first;
    }
    lowest_race::lowest_race(words, boards, count, rule).map(|_| list)
}

// Every list is walked; a refusal ends it at once, as it is the first refused list's.
pub fn walk_lists(
    rows: &Rows,
    code: usize,
    boards: &mut [u8],
    words: &mut [u64],
) -> Result<Walked, Refusal>
    requires rows_read { AreLent rows.now }
    requires code_lt_channels { code < channels }
    requires boards_len { length boards.old ≡ 2 * messages_most }
    requires words_len { length words.old ≡ 2 * messages_most * width }
    ensures { WalkedAs (rows_in rows.now) code boards.new words.new result }
{
    let rule = race::rule_of(code);
    let mut first = None;
    let mut list = 0;
    // Not a `for`: the A rows that a list meets say which list is next.
    loop {
        let counted = expansion::expand_list(rows, list, boards, words)?;
        let behind = next_list(list, counted.choices);
        if behind == LISTS {
            return Ok(Walked {
                list,
                messages: counted.messages,
                met: counted.choices,
                first,
            });
        }
        first = first_locked(words, boards, counted.messages, rule, first, list);
        list = behind;
    }
}
