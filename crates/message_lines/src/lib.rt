// The lines of the messages' M rows: the walk of an accepted sheet again, counting messages alone, up to as many as are asked for.
#![tactic(auto)]

ghost use Rattle.std.specs.Prelude.{◌≡◌, ◌++◌, ◌*◌, ◌<◌, ◌≤◌, length, get_or, take, drop};
ghost use Rattle.model.specs.Limits.{messages_most};
ghost use Rattle.model.specs.Senders.{lines_met};
ghost use Rattle.relation.specs.Width.{width};
ghost use Rattle.sheet.specs.Columns.{rows_in};
ghost use Rattle.expansion.specs.Lent.{AreLent};
ghost use Rattle.message_lines.specs.Lines.{lines_in};

use sheet::Rows;

// The walk of the rows: the line of each M row that it meets, up to so many. No limit of a walk is met on the way, since the rows are
// those of an accepted sheet. Calls are counted as what brings the walk nearer to its end.
fn walk_rows(rows: &Rows, asked: usize, lines: &mut [u16])
    requires rows_read { AreLent rows.now }
    requires asked_in_bounds { asked ≤ length (lines_in (rows_in rows.now)) }
    requires asked_in_bounds_2 { asked ≤ length lines.old }
    ensures { lines.new ≡ take asked (lines_in (rows_in rows.now)) ++ drop asked lines.old }
{
    let mut from = [0usize; model::LEVELS];
    let mut level = 0;
    let mut at = levels::start_of(rows.start, 0);
    let mut calls = 0usize;
    let mut met = 0;
    // Not a `for`: calls and the ends of sheets lead from row to row.
    while met < asked {
        let letter = levels::letter_at(rows.kind, rows.count, at);
        if letter == b'C' {
            from[level] = at;
            level += 1;
            calls += 1;
            at = levels::start_of(rows.start, rows.one[at]);
            continue;
        }
        if letter == b'S' {
            level -= 1;
            at = from[level] + 1;
            continue;
        }
        if letter == b'M' {
            lines[met] = (at + model::FIRST_LINE) as u16;
            met += 1;
            at += 1;
            continue;
        }
        at += 1;
    }
}

// The lines of the first messages that the walk of the text meets, at the start of `lines`. The text is read again; what is left in the
// words does not matter.
pub fn lines_of(text: &[u8], asked: usize, words: &mut [u64], lines: &mut [u16])
    requires words_len { length words.old ≡ 2 * messages_most * width }
    requires asked_in_bounds { asked ≤ length (lines_met text.now) }
    requires asked_in_bounds_2 { asked ≤ length lines.old }
    ensures { lines.new ≡ take asked (lines_met text.now) ++ drop asked lines.old }
{
    let mut kind = [0u8; model::ROWS_MOST];
    let mut one = [0u16; model::ROWS_MOST];
    let mut two = [0u16; model::ROWS_MOST];
    let mut start = [0u16; model::SHEETS];
    let read = sheet::read(
        text, false, &mut kind, &mut one, &mut two, &mut start, words,
    );
    if let Ok(count) = read {
        let rows = Rows {
            kind: &kind,
            one: &one,
            two: &two,
            count,
            start: &start,
        };
        walk_rows(&rows, asked, lines);
    }
}

// The line of the M row of one message.
pub fn line_of(text: &[u8], message: usize, words: &mut [u64]) -> usize
    requires words_len { length words.old ≡ 2 * messages_most * width }
    requires message_in_bounds { message < length (lines_met text.now) }
    requires message_lt_messages_most { message < messages_most }
    ensures { result ≡ get_or (lines_met text.now) message 0 }
{
    let mut lines = [0u16; model::MESSAGES_MOST];
    lines_of(text, message + 1, words, &mut lines);
    usize::from(lines[message])
}
