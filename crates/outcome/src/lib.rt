// A refusal, as the parts of the check hand it on: why, and at which line.
#![tactic(auto)]

ghost use Rattle.std.specs.Prelude.{◌≡◌};
ghost use Rattle.outcome.specs.Refusals.{number_in};

// Why a text or a call is refused, by the numbers of the table of refusals.
#[derive(Clone, Copy, Debug, PartialEq, Eq)]
pub enum Reason {
    Channel = 1,
    Bench = 2,
    Length = 3,
    Heading = 4,
    Row = 5,
    Place = 6,
    Absent = 7,
    Depth = 8,
    Calls = 9,
    Messages = 10,
    Circle = 11,
    Trace = 12,
    Choices = 13,
    Switch = 14,
    CuredRows = 15,
    Jobs = 16,
    Held = 17,
    SenderTable = 18,
    Forbidden = 19,
    Tap = 20,
}

// A refusal: its reason, and the line to report; 0 where no line is at fault.
#[derive(Clone, Copy, Debug, PartialEq, Eq)]
pub struct Refusal {
    pub reason: Reason,
    pub line: usize,
}

impl Reason {
    // The number that C is told.
    pub fn number(self) -> u32
        ensures { result ≡ number_in self }
    {
        self as u32
    }

    // The refusal for this reason, at a line.
    pub fn at(self, line: usize) -> Refusal
        ensures { result ≡ record { reason = self; line = line } }
    {
        Refusal { reason: self, line }
    }
}
