// The sheets that a file needs are in it (refusal 7): the table of starts says which are.
#![tactic(auto)]

ghost use Rattle.std.specs.Prelude.{◌≡◌, ◌≤◌, ◌<◌, length, get_or};
ghost use Rattle.model.specs.Limits.{sheets, rows_most};
ghost use Rattle.place.specs.Stand.{is_open};
ghost use Rattle.presence.specs.AbsentCalls.{calls_absent, presence_in};

use model::{ROWS_MOST, SHEETS};
use outcome::{Reason, Refusal};

// Row i calls a sheet that is not there; an A row names two calls.
fn calls_absent(
    kind: &[u8; ROWS_MOST],
    one: &[u16; ROWS_MOST],
    two: &[u16; ROWS_MOST],
    start: &[u16; SHEETS],
    i: usize,
) -> bool
    requires { (i < rows_most) × (length start.now ≡ sheets) }
    ensures { result ≡ calls_absent (get_or kind.now i 0) (get_or one.now i 0) (get_or two.now i 0) start.now }
{
    match kind[i] {
        b'C' => !is_open(start, one[i]),
        b'A' => !is_open(start, one[i]) || !is_open(start, two[i]),
        _ => false,
    }
}

// Sheet 0 is there, and so is every sheet that so many rows call; or the refusal, with the line to report.
pub fn complete(
    count: usize,
    kind: &[u8; ROWS_MOST],
    one: &[u16; ROWS_MOST],
    two: &[u16; ROWS_MOST],
    start: &[u16; SHEETS],
) -> Result<(), Refusal>
    requires { (count ≤ rows_most) × (length start.now ≡ sheets) }
    ensures { result ≡ presence_in kind.now one.now two.now start.now count }
{
    if !is_open(start, 0) {
        return Err(Reason::Absent.at(0));
    }
    for i in 0..count {
        if calls_absent(kind, one, two, start, i) {
            return Err(Reason::Absent.at(i + model::FIRST_LINE));
        }
    }
    Ok(())
}

// Sheet n is there.
fn is_open(start: &[u16; SHEETS], n: u16) -> bool
    requires { length start.now ≡ sheets }
    ensures { result ≡ is_open start.now n }
{
    let k = n as usize;
    k < SHEETS && start[k] != 0
}
