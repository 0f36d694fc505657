// The way from a text to its scenario, which every call takes: the text is read, and its calls are expanded.
#![tactic(auto)]

ghost use Rattle.std.specs.Prelude.{◌≡◌, ◌*◌, length};
ghost use Rattle.model.specs.Limits.{messages_most};
ghost use Rattle.relation.specs.Width.{width};
ghost use Rattle.scenario.specs.Contract.{SheetIn};

use outcome::Refusal;
use sheet::Rows;

// The scenario of a text: so many messages, the board of each event and the causal order in words; or refusal 3 to 11.
pub fn scenario_of(
    text: &[u8],
    boards: &mut [u8; model::EVENTS_MOST],
    words: &mut [u64],
) -> Result<usize, Refusal>
    requires { length words.old ≡ 2 * messages_most * width }
    ensures { SheetIn text.now boards.new words.new result }
{
    let mut kind = [0u8; model::ROWS_MOST];
    let mut one = [0u16; model::ROWS_MOST];
    let mut two = [0u16; model::ROWS_MOST];
    let mut start = [0u16; model::SHEETS];
    // Not a `?`: the edit refusal_of_another_number changes what is handed on here.
    let count = match sheet::read(
        text, false, &mut kind, &mut one, &mut two, &mut start, words,
    ) {
        Ok(count) => count,
        Err(refusal) => return Err(refusal),
    };
    let rows = Rows {
        kind: &kind,
        one: &one,
        two: &two,
        count,
        start: &start,
    };
    expansion::expand(&rows, boards, words)
}
