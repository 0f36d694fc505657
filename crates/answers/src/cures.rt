// The cure's answer as C gets it.
ghost use Rattle.std.specs.Prelude.{◌≡◌};
ghost use Rattle.cure.specs.Parts.{numbers_for};
ghost use Rattle.answers.specs.Cures.{Small, numbers_in};

use answer_words::cured::{REFUSED, WRITTEN};
use outcome::Refusal;

// word 0 written (one is the text's length), 1 refused (one is the number, two the line).
#[repr(C)]
#[derive(Clone, Copy)]
pub struct CureSheetAnswer {
    pub word: u32,
    pub one: u32,
    pub two: u32,
}

// The answer's numbers. Each fits 32 bits.
pub fn cured(answer: Result<usize, Refusal>) -> CureSheetAnswer
    requires { Small (numbers_for answer) }
    ensures { numbers_in result ≡ numbers_for answer }
{
    match answer {
        Ok(length) => CureSheetAnswer {
            word: WRITTEN,
            one: length as u32,
            two: 0,
        },
        Err(refusal) => CureSheetAnswer {
            word: REFUSED,
            one: refusal.reason.number(),
            two: refusal.line as u32,
        },
    }
}
