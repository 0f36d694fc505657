// A row: its form (refusal 5), a letter and two numbers in the heading's order, ahead of its place (6), and that ahead of a circle (11).
#![tactic(auto)]

ghost use Rattle.std.specs.Prelude.{◌≡◌, cond, ◌*◌, ◌≤◌, length};
ghost use Rattle.std.proofs.Math.Option.{none, some};
ghost use Rattle.model.specs.Limits.{sheets, messages_most};
ghost use Rattle.model.specs.Rows.{formed};
ghost use Rattle.relation.specs.Width.{width};
ghost use Rattle.heading.specs.Names.{Below, columns_from};
ghost use Rattle.place.specs.Letters.{row_from};
ghost use Rattle.row.specs.Form.{RowAs};
ghost use Rattle.row.specs.Judged.{reader_of, StepAs};

use heading::Columns;
use model::{EVENTS_MOST, SHEETS};
use outcome::Reason;

// A row's kind and numbers, and where the next one begins.
#[derive(Clone, Copy)]
struct Reading {
    pub kind: u8,
    pub one: u16,
    pub two: u16,
    pub next: usize,
}

// A row's kind and numbers, where the next one begins, and the messages of the open block behind it.
#[derive(Clone, Copy)]
pub struct Step {
    pub kind: u8,
    pub one: u16,
    pub two: u16,
    pub next: usize,
    pub messages: usize,
}

// The row with the number `row`, from 0, which begins at `at`, in a block of so many messages, whose order the words hold. An A row is
// one where `choices` lets it through.
pub fn take_row(
    text: &[u8],
    at: usize,
    row: usize,
    messages: usize,
    choices: bool,
    columns: Columns,
    start: &mut [u16; SHEETS],
    boards: &mut [u8; EVENTS_MOST],
    words: &mut [u64],
) -> Result<Step, Reason>
    requires { (at ≤ length text.now) × Below columns × (messages ≤ messages_most) × (length start.old ≡ sheets) × (length boards.old ≡ 2 * messages_most) × (length words.old ≡ 2 * messages_most * width) }
    ensures { StepAs choices (columns_from columns) text.now at row (reader_of start.old boards.old messages words.old) start.new boards.new words.new result }
{
    if model::ROWS_MOST <= row {
        return Err(Reason::Row);
    }
    let Reading {
        kind,
        one,
        two,
        next,
    } = row_at(text, at, choices, columns).ok_or(Reason::Row)?;
    let after = place::place(row, kind, one, two, messages, start, boards).ok_or(Reason::Place)?;
    let circle = block_order::note(kind, one, two, messages, words);
    if circle {
        return Err(Reason::Circle);
    }
    Ok(Step {
        kind,
        one,
        two,
        next,
        messages: after,
    })
}

// The row at `at`.
fn row_at(text: &[u8], at: usize, choices: bool, columns: Columns) -> Option<Reading>
    requires { (at ≤ length text.now) × Below columns }
    ensures { RowAs choices (columns_from columns) text.now at result }
{
    let cuts = line::cut(text, at)?;
    let kind = fields::letter_in(text, cuts, columns.kind);
    let one = fields::number_in(text, cuts, columns.one)?;
    let two = fields::number_in(text, cuts, columns.two)?;
    if !is_formed(choices, kind, one, two) {
        return None;
    }
    Some(Reading {
        kind,
        one,
        two,
        next: cuts.end + 1,
    })
}

// The letter is one of the five, or an A that is let through, and an unused field is 0.
fn is_formed(choices: bool, kind: u8, one: u16, two: u16) -> bool
    ensures { cond result (some (row_from kind one two)) none ≡ formed choices kind one two }
{
    match kind {
        b'M' | b'P' => true,
        b'A' => choices,
        b'S' | b'C' => two == 0,
        b'B' => one == 0 && two == 0,
        _ => false,
    }
}
