// The letter, the number or the name that a field of a line holds.
#![tactic(auto)]

ghost use Rattle.std.specs.Prelude.{◌≡◌, [], ◌^◌, ◌≤◌, ◌<◌, length, get_or};
ghost use Rattle.std.proofs.Math.Seq.{slice};
ghost use Rattle.model.specs.Bounded.{same};
ghost use Rattle.model.specs.Text.{number_of, number_up_to};
ghost use Rattle.outcome.specs.Options.{found_in};
ghost use Rattle.line.specs.Parts.{Cut, fields_in};
ghost use Rattle.fields.specs.Fields.{span_of, letter_of, numeral};

use line::Cuts;

// A field: the bytes from `from` up to `to`.
#[derive(Clone, Copy)]
struct Span {
    pub from: usize,
    pub to: usize,
}

// The field with the number `place`, from 0, of the three.
fn field(cuts: Cuts, place: usize) -> Span
    requires { (cuts.first < cuts.second) × (cuts.second < cuts.end) }
    ensures { result ≡ span_of cuts place }
{
    if place == 0 {
        return Span {
            from: cuts.at,
            to: cuts.first,
        };
    }
    if place == 1 {
        return Span {
            from: cuts.first + 1,
            to: cuts.second,
        };
    }
    Span {
        from: cuts.second + 1,
        to: cuts.end,
    }
}

// The letter that a field holds: its one byte; 0, which is no letter, where it has none or more.
pub fn letter_in(text: &[u8], cuts: Cuts, place: usize) -> u8
    requires { Cut text.now cuts × (place < 3) }
    ensures { result ≡ letter_of (get_or (fields_in text.now cuts) place []) }
{
    let span = field(cuts, place);
    let from = span.from;
    if span.to - from == 1 { text[from] } else { 0 }
}

// The number that a field of a sheet file holds.
pub fn number_in(text: &[u8], cuts: Cuts, place: usize) -> Option<u16>
    requires { Cut text.now cuts × (place < 3) }
    ensures { found_in result ≡ number_of (get_or (fields_in text.now cuts) place []) }
{
    number_up_to(text, cuts, place, model::NUMBER_MOST)
}

// The number that a field holds, at most `most`: decimal, without leading zeros.
pub fn number_up_to(text: &[u8], cuts: Cuts, place: usize, most: usize) -> Option<u16>
    requires { Cut text.now cuts × (place < 3) × (most < 2 ^ 16) }
    ensures { found_in result ≡ number_up_to most (get_or (fields_in text.now cuts) place []) }
{
    let span = field(cuts, place);
    number_at(text, span.from, span.to, most)
}

// The number of the bytes from `from` up to `to`.
fn number_at(text: &[u8], from: usize, to: usize, most: usize) -> Option<u16>
    requires { (from ≤ to) × (to ≤ length text.now) × (most < 2 ^ 16) }
    ensures { found_in result ≡ number_up_to most (slice from to text.now) }
{
    if from == to {
        return None;
    }
    if text[from] == b'0' && from + 1 < to {
        return None;
    }
    digits(text, from, to, most)
}

// The value of the digits from `from` up to `to`.
fn digits(text: &[u8], from: usize, to: usize, most: usize) -> Option<u16>
    requires { (from ≤ to) × (to ≤ length text.now) × (most < 2 ^ 16) }
    ensures { found_in result ≡ numeral most 0 (slice from to text.now) }
{
    let mut value = 0;
    for i in from..to {
        let b = text[i];
        if b < b'0' || b'9' < b {
            return None;
        }
        value = value * 10 + (b - b'0') as usize;
        if most < value {
            return None;
        }
    }
    Some(value as u16)
}

// A field is the given name.
pub fn is_name(text: &[u8], cuts: Cuts, place: usize, name: &[u8]) -> bool
    requires { Cut text.now cuts × (place < 3) }
    ensures { result ≡ same name.now (get_or (fields_in text.now cuts) place []) }
{
    let span = field(cuts, place);
    are_bytes(text, span.from, span.to, name)
}

// The bytes from `from` up to `to` are the name's.
fn are_bytes(text: &[u8], from: usize, to: usize, name: &[u8]) -> bool
    requires { (from ≤ to) × (to ≤ length text.now) }
    ensures { result ≡ same name.now (slice from to text.now) }
{
    if to - from != name.len() {
        return false;
    }
    for i in 0..name.len() {
        if name[i] != text[from + i] {
            return false;
        }
    }
    true
}
