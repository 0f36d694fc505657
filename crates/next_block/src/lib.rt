// The levels of calls: the way from one block of a walk to the next. Refusals 8, 9 and 13.
#![tactic(auto)]

ghost use Rattle.std.specs.Prelude.{◌≡◌, ◌≤◌, length};
ghost use Rattle.levels.specs.Options.{is_call};
ghost use Rattle.next_block.specs.Levels.{BehindBlocks, Sheets, Between, Reaches};

use model::FIRST_LINE;
use outcome::{Reason, Refusal};
use sheet::Rows;
use walk::Walk;

// Where the walk comes to between two blocks: the level and row of the next block, or the end of sheet 0, each with the calls made and
// the A rows met.
#[derive(Clone, Copy)]
pub enum Reached {
    Block {
        level: usize,
        row: usize,
        calls: usize,
        choices: usize,
    },
    End {
        calls: usize,
        choices: usize,
    },
}

// A row that calls: C, or A.
#[tactic(auto, unfolding(levels::specs::Options::is_call))]
fn is_call(letter: u8) -> bool
    ensures { result ≡ is_call letter }
{
    letter == b'C' || letter == b'A'
}

// The first row from `row` on that is no B row: an empty block costs its row alone.
// Kept out of line: in line, each turn keeps its letter for the caller, one instruction of six.
#[inline(never)]
fn behind_blocks(kind: &[u8], rows: usize, row: usize) -> usize
    requires rows_in_bounds { rows ≤ length kind.now }
    requires row_le_rows { row ≤ rows }
    ensures { BehindBlocks kind.now rows row result }
{
    for at in row..rows {
        if kind[at] != b'B' {
            return at;
        }
    }
    rows
}

// From a row on, the open block being empty, to the next row of a block, through calls and ends of sheets, or to refusal 8, 9 or 13.
// The options are those of a list of eight, as a number.
pub fn next_block(
    rows: &Rows,
    options: usize,
    from: &mut [usize],
    mut level: usize,
    mut at: usize,
    mut calls: usize,
    mut choices: usize,
) -> Result<Reached, Refusal>
    requires sheets { Sheets options rows.now.kind.now rows.now.one.now rows.now.two.now rows.now.count rows.now.start.now }
    requires between { Between options rows.now.kind.now rows.now.one.now rows.now.two.now rows.now.count from.old level at calls }
    ensures { Reaches options rows.now.kind.now rows.now.one.now rows.now.two.now rows.now.count from.old level at calls choices result from.new }
{
    // Not a `for`: calls and the ends of sheets lead from row to row.
    loop {
        if walk::in_block(rows.kind, rows.count, at) {
            return Ok(Reached::Block {
                level,
                row: at,
                calls,
                choices,
            });
        }
        let letter = levels::letter_at(rows.kind, rows.count, at);
        if is_call(letter) {
            let line = at + FIRST_LINE;
            if level == model::LEVELS {
                return Err(Reason::Depth.at(line));
            }
            if Walk::CALLS_MOST <= calls {
                return Err(Reason::Calls.at(line));
            }
            if calls::is_ninth(letter, choices) {
                return Err(Reason::Choices.at(line));
            }
            let sheet = calls::called_sheet(letter, rows.one, rows.two, at, options, choices);
            choices = calls::choices_behind(letter, choices);
            calls += 1;
            from[level] = at;
            level += 1;
            at = levels::start_of(rows.start, sheet);
            continue;
        }
        if letter == b'S' {
            if level == 0 {
                return Ok(Reached::End { calls, choices });
            }
            level -= 1;
            at = from[level] + 1;
            continue;
        }
        at = behind_blocks(rows.kind, rows.count, at + 1);
    }
}
