// The answer on two taps as C gets it.
ghost use Rattle.std.specs.Prelude.{◌≡◌};
ghost use Rattle.taps.specs.Parts.{numbers_for};
ghost use Rattle.answers.specs.Tapped.{Small, numbers_in};

use answer_words::fitted::{CLASH, FIT, REFUSED};
use outcome::Refusal;
use taps::Taps;

// word 0 fit (one is how many events are written), 1 clash (one is the event), 2 refused (one is the number, two the line).
#[repr(C)]
#[derive(Clone, Copy)]
pub struct TapsCheckAnswer {
    pub word: u32,
    pub one: u32,
    pub two: u32,
}

// The answer's numbers. Each fits 32 bits.
pub fn fitted(answer: Result<Taps, Refusal>) -> TapsCheckAnswer
    requires { Small (numbers_for answer) }
    ensures { numbers_in result ≡ numbers_for answer }
{
    match answer {
        Ok(Taps::Fit(events)) => TapsCheckAnswer {
            word: FIT,
            one: events as u32,
            two: 0,
        },
        Ok(Taps::Clash(event)) => TapsCheckAnswer {
            word: CLASH,
            one: event as u32,
            two: 0,
        },
        Err(refusal) => TapsCheckAnswer {
            word: REFUSED,
            one: refusal.reason.number(),
            two: refusal.line as u32,
        },
    }
}
