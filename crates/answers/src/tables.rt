// The judgement of a table of permitted senders as C gets it.
ghost use Rattle.std.specs.Prelude.{◌≡◌};
ghost use Rattle.senders.specs.Judgement.{numbers_for};
ghost use Rattle.answers.specs.Numbers.{Small};
ghost use Rattle.answers.specs.Tables.{numbers_in};

use answer_words::judged::{CLASH, GAP, REFUSED, SOUND};
use outcome::Refusal;
use senders::Judgement;

// word 0 sound, 1 gap (one is the pair), 2 clash (one is the pair, two and three the lines of its first two rules), 3 refused (one is the
// number, two the line).
#[repr(C)]
#[derive(Clone, Copy)]
pub struct SendersCheckAnswer {
    pub word: u32,
    pub one: u32,
    pub two: u32,
    pub three: u32,
}

// The judgement's numbers. Each fits 32 bits.
pub fn judged(judgement: Result<Judgement, Refusal>) -> SendersCheckAnswer
    requires { Small (numbers_for judgement) }
    ensures { numbers_in result ≡ numbers_for judgement }
{
    match judgement {
        Ok(Judgement::Sound) => SendersCheckAnswer {
            word: SOUND,
            one: 0,
            two: 0,
            three: 0,
        },
        Ok(Judgement::Gap(pair)) => SendersCheckAnswer {
            word: GAP,
            one: pair as u32,
            two: 0,
            three: 0,
        },
        Ok(Judgement::Clash(pair, first, second)) => {
            SendersCheckAnswer {
                word: CLASH,
                one: pair as u32,
                two: first as u32,
                three: second as u32,
            }
        }
        Err(refusal) => {
            SendersCheckAnswer {
                word: REFUSED,
                one: refusal.reason.number(),
                two: refusal.line as u32,
                three: 0,
            }
        }
    }
}
