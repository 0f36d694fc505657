// The reader of sheet files: any bytes in; the rows, or refusal 3 to 7 or 11 with its line, out.
#![tactic(auto)]

ghost use Rattle.std.specs.Prelude.{◌≡◌, ◌*◌, ◌≤◌, length};
ghost use Rattle.model.specs.Limits.{messages_most};
ghost use Rattle.relation.specs.Width.{width};
ghost use Rattle.heading.specs.Names.{Below, columns_from};
ghost use Rattle.sheet.specs.Bridge.{store_of, Sized, ReadAs};
ghost use Rattle.sheet.specs.Store.{BodyAs};

use heading::Columns;
use model::{EVENTS_MOST, ROWS_MOST, SHEETS};
use outcome::{Reason, Refusal};

// The rows that were read, in three columns of so many, and at `start[n]` the number of the row behind `S n`.
#[derive(Clone, Copy)]
pub struct Rows<'a> {
    pub kind: &'a [u8],
    pub one: &'a [u16],
    pub two: &'a [u16],
    pub count: usize,
    pub start: &'a [u16],
}

// Reads a text, with or without A rows let through, into three columns of as many rows as it hands back, and notes at `start[n]` the number of the row behind `S n` (0: no sheet n).
// The words hold the open block's order while it is read. What columns and words are lent with does not matter.
pub fn read(
    text: &[u8],
    choices: bool,
    kind: &mut [u8; ROWS_MOST],
    one: &mut [u16; ROWS_MOST],
    two: &mut [u16; ROWS_MOST],
    start: &mut [u16; SHEETS],
    words: &mut [u64],
) -> Result<usize, Refusal>
    requires { Sized (store_of kind.old one.old two.old start.old) × (length words.old ≡ 2 * messages_most * width) }
    ensures { ReadAs choices text.now kind.new one.new two.new start.new result }
{
    if text.is_empty() || model::TEXT_MOST < text.len() {
        return Err(Reason::Length.at(0));
    }
    let heading = heading::heading_of(text).ok_or(Reason::Heading.at(1))?;
    read_rows(
        text,
        heading.first_row,
        choices,
        heading.columns,
        kind,
        one,
        two,
        start,
        words,
    )
}

// All rows from `first` on, which is behind the heading.
fn read_rows(
    text: &[u8],
    first: usize,
    choices: bool,
    columns: Columns,
    kind: &mut [u8; ROWS_MOST],
    one: &mut [u16; ROWS_MOST],
    two: &mut [u16; ROWS_MOST],
    start: &mut [u16; SHEETS],
    words: &mut [u64],
) -> Result<usize, Refusal>
    requires { (first ≤ length text.now) × Below columns × Sized (store_of kind.old one.old two.old start.old) × (length words.old ≡ 2 * messages_most * width) }
    ensures { BodyAs choices (columns_from columns) text.now first (store_of kind.new one.new two.new start.new) result }
{
    *start = [0u16; SHEETS];
    let mut boards = [0u8; EVENTS_MOST];
    let mut at = first;
    let mut row = 0;
    let mut messages = 0;
    // Not a `for`: each row says where the next begins.
    while at < text.len() {
        let taken = row::take_row(
            text,
            at,
            row,
            messages,
            choices,
            columns,
            start,
            &mut boards,
            words,
        );
        // A row is refused at its line.
        let step = match taken {
            Ok(step) => step,
            Err(reason) => return Err(reason.at(row + model::FIRST_LINE)),
        };
        kind[row] = step.kind;
        one[row] = step.one;
        two[row] = step.two;
        at = step.next;
        row += 1;
        messages = step.messages;
    }
    presence::complete(row, kind, one, two, start)?;
    Ok(row)
}
