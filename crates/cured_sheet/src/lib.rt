// The cured sheet as text, row by row: each row starts at the byte after the one before, and its writer is lent the rest of the output.
#![tactic(auto)]

ghost use Rattle.std.specs.Prelude.{◌≡◌, ◌+◌, ◌*◌, ◌/◌, ◌%◌, ◌<◌, ◌≤◌, length};
ghost use Rattle.model.specs.Limits.{messages_most, rows_most, sheet_output_least};
ghost use Rattle.model.specs.Cure.{row_text, rows_text, order_rows};
ghost use Rattle.relation.specs.Width.{width, word_bits};
ghost use Rattle.relation.specs.Rows.{has};
ghost use Rattle.sheet_text.specs.Writing.{Writes, row_bytes_most};
ghost use Rattle.order_count.specs.Orders.{orders_from, orders_to};
ghost use Rattle.cured_sheet.specs.Sheet.{message_row, messages_in, order_if, head_most, head_text, listed_text, rows_in, text_in};
ghost use Rattle.cured_sheet.specs.Spans.{word_before, EventsOf, NoneFirst, NoneLast, SpanOf, SpanHeld};

use relation::{WIDTH, WORD_BITS};

// The letters of the rows.
const SHEET: u8 = 83;

const MESSAGE: u8 = 77;

const ORDER: u8 = 80;

// The M row of message m.
fn write_message(boards: &[u8], m: usize, rest: &mut [u8]) -> usize
    requires m_lt_messages_most { (m < messages_most) × (2 * m + 1 < length boards.now) }
    requires row_bytes_most_in_bounds { row_bytes_most ≤ length rest.old }
    ensures { Writes (row_text (message_row boards.now m)) rest.old rest.new result }
{
    let send = 2 * m;
    let receive = send + 1;
    sheet_text::write_row(rest, MESSAGE, boards[send] as u16, boards[receive] as u16)
}

// The M rows, in the walk's numbering.
fn write_messages(boards: &[u8], count: usize, rest: &mut [u8]) -> usize
    requires count_le_messages_most { (count ≤ messages_most) × (2 * count ≤ length boards.now) }
    requires count_in_bounds { row_bytes_most * count ≤ length rest.old }
    ensures writes { Writes (rows_text (messages_in boards.now count)) rest.old rest.new result }
    ensures upper_bound { result ≤ row_bytes_most * count }
{
    let mut at = 0;
    for m in 0..count {
        at = at + write_message(boards, m, &mut rest[at..]);
    }
    at
}

// The P row of event x with e's send, where x stands directly before it.
fn write_order(words: &[u64], x: usize, e: usize, rest: &mut [u8]) -> usize
    requires e_lt_messages_most { (e < messages_most) × (x < 2 * messages_most) }
    requires width_in_bounds { (2 * e + 1) * width + width ≤ length words.now }
    requires row_bytes_most_in_bounds { row_bytes_most ≤ length rest.old }
    ensures { Writes (rows_text (order_rows (order_if words.now x e))) rest.old rest.new result }
{
    let send = 2 * e;
    let receive = send + 1;
    if !relation::test(words, receive, x) {
        return 0;
    }
    sheet_text::write_row(rest, ORDER, x as u16, send as u16)
}

// The word of the events directly before e's send: word w of the row of its receive.
fn word_before(words: &[u64], e: usize, w: usize) -> u64
    requires e_lt_messages_most { (e < messages_most) × (w < width) }
    requires width_in_bounds { (2 * e + 1) * width + width ≤ length words.now }
    ensures { result ≡ word_before words.now w e }
{
    let row = (2 * e + 1) * WIDTH;
    let at = row + w;
    words[at]
}

// The events of word w that stand directly before some send.
fn events_of(words: &[u64], count: usize, w: usize) -> u64
    requires count_le_messages_most { (count ≤ messages_most) × (w < width) }
    requires width_in_bounds { 2 * count * width ≤ length words.now }
    ensures { EventsOf words.now count w result }
{
    let mut events = 0;
    for e in 0..count {
        events = events | word_before(words, e, w);
    }
    events
}

// The first message with an event of word w directly before its send; where there is none, all messages.
fn first_behind(words: &[u64], count: usize, w: usize) -> usize
    requires count_le_messages_most { (count ≤ messages_most) × (w < width) }
    requires width_in_bounds { 2 * count * width ≤ length words.now }
    ensures { NoneFirst words.now count w result }
{
    for e in 0..count {
        if word_before(words, e, w) != 0 {
            return e;
        }
    }
    count
}

// The message behind the last of these; where there is none, 0.
fn end_behind(words: &[u64], count: usize, w: usize) -> usize
    requires count_le_messages_most { (count ≤ messages_most) × (w < width) }
    requires width_in_bounds { 2 * count * width ≤ length words.now }
    ensures { NoneLast words.now count w result }
{
    for e in (0..count).rev() {
        if word_before(words, e, w) != 0 {
            return e + 1;
        }
    }
    0
}

// Of the events of a word: those directly before some send, the first message with such a send, and the one behind the last.
#[derive(Clone, Copy)]
struct Span {
    events: u64,
    first: usize,
    end: usize,
}

// The span of word w; empty where no event of it stands directly before a send.
fn span_of(words: &[u64], count: usize, w: usize) -> Span
    requires count_le_messages_most { (count ≤ messages_most) × (w < width) }
    requires width_in_bounds { 2 * count * width ≤ length words.now }
    ensures { SpanOf words.now count w result }
{
    let events = events_of(words, count, w);
    if events == 0 {
        return Span {
            events: 0,
            first: 0,
            end: 0,
        };
    }
    let first = first_behind(words, count, w);
    let end = end_behind(words, count, w);
    Span { events, first, end }
}

// The span of event x's word: the one that is held, or that of the next word where one begins.
fn span_at(words: &[u64], count: usize, x: usize, span: Span) -> Span
    requires count_le_messages_most { (count ≤ messages_most) × (x < 2 * count) }
    requires width_in_bounds { 2 * count * width ≤ length words.now }
    requires span_held { SpanHeld words.now count x span }
    ensures { SpanOf words.now count (x / word_bits) result }
{
    if x % WORD_BITS == 0 {
        return span_of(words, count, x / WORD_BITS);
    }
    span
}

// Event x stands directly before some send.
fn is_before(span: Span, x: usize) -> bool
    ensures { result ≡ has span.events (x % word_bits) }
{
    (span.events >> (x % WORD_BITS)) & 1 == 1
}

// The P rows of event x, by the sends that it stands directly before: none of them is outside the span.
fn write_orders_from(words: &[u64], count: usize, x: usize, span: Span, rest: &mut [u8]) -> usize
    requires count_le_messages_most { (count ≤ messages_most) × (x < 2 * count) }
    requires width_in_bounds { 2 * count * width ≤ length words.now }
    requires span_of { SpanOf words.now count (x / word_bits) span }
    requires row_bytes_most_in_bounds { row_bytes_most * length (orders_from words.now x count) + row_bytes_most ≤ length rest.old }
    ensures { Writes (rows_text (order_rows (orders_from words.now x count))) rest.old rest.new result }
{
    if !is_before(span, x) {
        return 0;
    }
    let mut at = 0;
    for e in span.first..span.end {
        at = at + write_order(words, x, e, &mut rest[at..]);
    }
    at
}

// All P rows, by x and then y.
fn write_orders(words: &[u64], count: usize, rest: &mut [u8]) -> usize
    requires count_le_messages_most { count ≤ messages_most }
    requires width_in_bounds { 2 * count * width ≤ length words.now }
    requires row_bytes_most_in_bounds { row_bytes_most * length (orders_to words.now count (2 * count)) + row_bytes_most ≤ length rest.old }
    ensures { Writes (rows_text (order_rows (orders_to words.now count (2 * count)))) rest.old rest.new result }
{
    let events = 2 * count;
    let mut at = 0;
    let mut span = Span {
        events: 0,
        first: 0,
        end: 0,
    };
    for x in 0..events {
        span = span_at(words, count, x, span);
        at = at + write_orders_from(words, count, x, span, &mut rest[at..]);
    }
    at
}

// The heading, and the row of sheet 0.
fn write_head(output: &mut [u8]) -> usize
    requires { head_most ≤ length output.old }
    ensures writes { Writes head_text output.old output.new result }
    ensures upper_bound { result ≤ head_most }
{
    let at = sheet_text::write_heading(output);
    at + sheet_text::write_row(&mut output[at..], SHEET, 0, 0)
}

// All but the P rows.
fn write_listed(boards: &[u8], count: usize, output: &mut [u8]) -> usize
    requires count_le_messages_most { (count ≤ messages_most) × (2 * count ≤ length boards.now) }
    requires count_in_bounds { head_most + row_bytes_most * count ≤ length output.old }
    ensures writes { Writes (listed_text boards.now count) output.old output.new result }
    ensures upper_bound { result ≤ head_most + row_bytes_most * count }
{
    let at = write_head(output);
    at + write_messages(boards, count, &mut output[at..])
}

// The cured sheet: the heading, sheet 0, the M rows and the P rows, each from the byte behind the one before.
pub fn write_sheet(words: &[u64], boards: &[u8], count: usize, output: &mut [u8]) -> usize
    requires count_le_messages_most { (count ≤ messages_most) × (2 * count ≤ length boards.now) }
    requires width_in_bounds { 2 * count * width ≤ length words.now }
    requires sheet_output_least_in_bounds { sheet_output_least ≤ length output.old }
    requires words_len_bound { length (rows_in count boards.now words.now) ≤ rows_most }
    ensures { Writes (text_in count boards.now words.now) output.old output.new result }
{
    let at = write_listed(boards, count, output);
    at + write_orders(words, count, &mut output[at..])
}
