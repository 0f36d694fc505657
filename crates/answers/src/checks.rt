// The answer of the check as C gets it.
ghost use Rattle.std.specs.Prelude.{◌≡◌};
ghost use Rattle.verdict.specs.Parts.{numbers_for};
ghost use Rattle.answers.specs.Numbers.{Small, numbers_in};

use answer_words::checked::{FREE, LOCKED, REFUSED};
use outcome::Refusal;
use verdict::Verdict;

// word 0 free, 1 locked (one is the message, two the event, three the number of steps), 2 refused (one is the number, two the line).
#[repr(C)]
#[derive(Clone, Copy)]
pub struct ChannelCheckAnswer {
    pub word: u32,
    pub one: u32,
    pub two: u32,
    pub three: u32,
}

// The answer's numbers. Each fits 32 bits.
pub fn checked(answer: Result<Verdict, Refusal>) -> ChannelCheckAnswer
    requires { Small (numbers_for answer) }
    ensures { numbers_in result ≡ numbers_for answer }
{
    match answer {
        Ok(Verdict::Free) => ChannelCheckAnswer {
            word: FREE,
            one: 0,
            two: 0,
            three: 0,
        },
        Ok(Verdict::Locked(message, event, steps)) => {
            ChannelCheckAnswer {
                word: LOCKED,
                one: message as u32,
                two: event as u32,
                three: steps as u32,
            }
        }
        Err(refusal) => {
            ChannelCheckAnswer {
                word: REFUSED,
                one: refusal.reason.number(),
                two: refusal.line as u32,
                three: 0,
            }
        }
    }
}
