// A line of a text, cut into its three fields.
#![tactic(auto)]

ghost use Rattle.std.specs.Prelude.{◌≡◌, ◌≤◌, length, drop};
ghost use Rattle.line.specs.Scan.{begins_with};
ghost use Rattle.line.specs.Parts.{FieldEnd, SplitAs};

// Byte 10 ends a line, and byte 32 stands between two fields.
const LINE_END: u8 = 10;

const SPACE: u8 = 32;

// A line of three fields, from `at`: the places of its two spaces and of its end.
#[derive(Clone, Copy)]
pub struct Cuts {
    pub at: usize,
    pub first: usize,
    pub second: usize,
    pub end: usize,
}

// Where the field that begins at `at` ends: at a space, a line end, or the end of the text.
fn field_end(text: &[u8], at: usize) -> usize
    requires { at ≤ length text.now }
    ensures { FieldEnd text.now at result }
{
    let mut i = at;
    // Not a `for`: with one end for the text and for a mark the reader of each field takes fewer instructions.
    while i < text.len() {
        let b = text[i];
        if b == SPACE || b == LINE_END {
            return i;
        }
        i += 1;
    }
    i
}

// The line that begins at `at`, if it has its end and three fields.
pub fn cut(text: &[u8], at: usize) -> Option<Cuts>
    requires { at ≤ length text.now }
    ensures { SplitAs text.now at result }
{
    let first = field_end(text, at);
    if !is_byte(text, first, SPACE) {
        return None;
    }
    let second = field_end(text, first + 1);
    if !is_byte(text, second, SPACE) {
        return None;
    }
    let end = field_end(text, second + 1);
    if !is_byte(text, end, LINE_END) {
        return None;
    }
    Some(Cuts {
        at,
        first,
        second,
        end,
    })
}

// The byte at `at` is there, and is `b`.
fn is_byte(text: &[u8], at: usize, b: u8) -> bool
    ensures { result ≡ begins_with b (drop at text.now) }
{
    at < text.len() && text[at] == b
}
