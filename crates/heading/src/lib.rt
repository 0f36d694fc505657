// The heading (refusal 4): which field of each row is its kind, its one and its two.
#![tactic(auto)]

ghost use Rattle.line.specs.Parts.{Cut, fields_in};
ghost use Rattle.heading.specs.Names.{NameAt, HeadingAs, HeadingIn};

use line::Cuts;

#[derive(Clone, Copy)]
pub struct Columns {
    pub kind: usize,
    pub one: usize,
    pub two: usize,
}

// The columns, and where the first row begins.
#[derive(Clone, Copy)]
pub struct Heading {
    pub columns: Columns,
    pub first_row: usize,
}

// The heading, which is the text's first line.
pub fn heading_of(text: &[u8]) -> Option<Heading>
    ensures { HeadingAs text.now result }
{
    let cuts = line::cut(text, 0)?;
    columns_in(text, cuts)
}

// The columns that three fields name.
fn columns_in(text: &[u8], cuts: Cuts) -> Option<Heading>
    requires { Cut text.now cuts }
    ensures { HeadingIn text.now cuts result }
{
    let kind = place_of(text, cuts, b"kind")?;
    let one = place_of(text, cuts, b"one")?;
    let two = place_of(text, cuts, b"two")?;
    Some(Heading {
        columns: Columns { kind, one, two },
        first_row: cuts.end + 1,
    })
}

// The number of the field that is the name, if one is.
fn place_of(text: &[u8], cuts: Cuts, name: &[u8]) -> Option<usize>
    requires { Cut text.now cuts }
    ensures { NameAt name.now (fields_in text.now cuts) result }
{
    if fields::is_name(text, cuts, 0, name) {
        return Some(0);
    }
    if fields::is_name(text, cuts, 1, name) {
        return Some(1);
    }
    if fields::is_name(text, cuts, 2, name) {
        return Some(2);
    }
    None
}
