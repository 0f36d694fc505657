// The expansion of calls: rows in, and a list of options for their A rows; the messages that the walk meets and their causal order in
// words, or refusal 8 to 10 or 13, out.
#![tactic(auto)]

ghost use Rattle.std.specs.Prelude.{◌≡◌, ◌*◌, length};
ghost use Rattle.model.specs.Limits.{boards as boards_most, messages_most};
ghost use Rattle.model.specs.Answer.{expanded_of};
ghost use Rattle.model.specs.Choice.{Plain};
ghost use Rattle.relation.specs.Width.{width};
ghost use Rattle.sheet.specs.Columns.{rows_in};
ghost use Rattle.blocks.specs.Store.{store_of, counted_with, walked_on};
ghost use Rattle.walk.specs.Block.{state_of};
ghost use Rattle.levels.specs.Options.{options_of};
ghost use Rattle.expansion.specs.Lent.{AreLent};
ghost use Rattle.expansion.specs.Outcome.{outcome_of, counted_of, zeros};
ghost use Rattle.expansion.specs.Ends.{Rests, Ends, beginning};

use blocks::PAST;
use next_block::Reached;
use outcome::Refusal;
use sheet::Rows;
use walk::Walk;

// So many messages are in boards and words, and so many A rows were met.
#[derive(Clone, Copy)]
pub struct Counted {
    pub messages: usize,
    pub choices: usize,
}

// The walk of sheet 0 and of all that it calls, block by block, on a list of eight options, from where an earlier walk has ended: messages are
// numbered on and the limits counted on. Refusals 8 to 10 and 13.
pub fn walk_on(
    rows: &Rows,
    options: usize,
    boards: &mut [u8],
    words: &mut [u64],
    past: &mut [u64],
    ended: Walk,
) -> Result<Walk, Refusal>
    requires rows_read { AreLent rows.now }
    requires rests { Rests ended (store_of boards.old words.old past.old) }
    ensures { Ends result (store_of boards.new words.new past.new) (walked_on (options_of options) (rows_in rows.now) (state_of ended (store_of boards.old words.old past.old))) }
{
    // A copy, so that no store of the walk can change where the columns are: they are not read anew at each row.
    let rows = *rows;
    let mut from = [0usize; model::LEVELS];
    let mut level = 0;
    let mut at = rows.start[0] as usize;
    let mut here = ended;
    // Not a `for`: each block says from where the next is looked for.
    loop {
        let reached = next_block::next_block(
            &rows,
            options,
            &mut from,
            level,
            at,
            here.calls,
            here.choices,
        )?;
        match reached {
            Reached::End { calls, choices } => {
                return Ok(Walk::opened(calls, choices, here.count));
            }
            Reached::Block {
                level: deep,
                row,
                calls,
                choices,
            } => {
                let walk = Walk::opened(calls, choices, here.count);
                let behind = walk::walk_block(&rows, boards, words, past, row, walk)?;
                level = deep;
                at = behind.row;
                here = behind.walk;
            }
        }
    }
}

// The walk from the beginning: every event is on board 0, none is met, and nothing is past on any board.
pub fn walk_once(
    rows: &Rows,
    options: usize,
    boards: &mut [u8],
    words: &mut [u64],
    past: &mut [u64],
) -> Result<Walk, Refusal>
    requires rows_read { AreLent rows.now }
    requires boards_len { length boards.old ≡ 2 * messages_most }
    requires words_len { length words.old ≡ 2 * messages_most * width }
    requires past_value { past.old ≡ zeros (boards_most * width) }
    ensures { Ends result (store_of boards.new words.new past.new) (walked_on (options_of options) (rows_in rows.now) (beginning words.old)) }
{
    boards.fill(0);
    let nothing = Walk::fresh();
    walk_on(rows, options, boards, words, past, nothing)
}

// The walk on a list of eight options: the scenario in boards and words and the A rows met, or refusal 8 to 10 or 13.
pub fn expand_list(
    rows: &Rows,
    options: usize,
    boards: &mut [u8],
    words: &mut [u64],
) -> Result<Counted, Refusal>
    requires rows_read { AreLent rows.now }
    requires boards_len { length boards.old ≡ 2 * messages_most }
    requires words_len { length words.old ≡ 2 * messages_most * width }
    ensures { counted_of result boards.new words.new ≡ counted_with (options_of options) (rows_in rows.now) }
{
    let mut past = [0u64; PAST];
    let walk = walk_once(rows, options, boards, words, &mut past)?;
    Ok(Counted {
        messages: walk.count,
        choices: walk.choices,
    })
}

// The walk of rows without an A row: the scenario in boards and words, or refusal 8 to 10.
pub fn expand(rows: &Rows, boards: &mut [u8], words: &mut [u64]) -> Result<usize, Refusal>
    requires rows_read { AreLent rows.now }
    requires plain { Plain (rows_in rows.now) }
    requires boards_len { length boards.old ≡ 2 * messages_most }
    requires words_len { length words.old ≡ 2 * messages_most * width }
    ensures { outcome_of result boards.new words.new ≡ expanded_of (rows_in rows.now) }
{
    // Not a `?`: the edit every_refusal_told_as_depth changes what is handed on here.
    match expand_list(rows, 0, boards, words) {
        Ok(counted) => Ok(counted.messages),
        Err(refusal) => Err(refusal),
    }
}
