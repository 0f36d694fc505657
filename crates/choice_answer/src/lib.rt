// The answer of the check of a file with choices: as C gets it, and the number by which the first locked list is told.
#![tactic(auto)]

ghost use Rattle.std.specs.Prelude.{◌≡◌, ◌≤◌, take};
ghost use Rattle.model.specs.Limits.{choices_most};
ghost use Rattle.model.specs.Choice.{choices_number};
ghost use Rattle.levels.specs.Options.{options_of};
ghost use Rattle.choice_answer.specs.Bridge.{numbers_for, numbers_in, Small};

use answer_words::checked::{FREE, LOCKED, REFUSED};
use outcome::Refusal;

// Free; or locked, with the race's message and event, the number of steps in the trace, and the first locked list's length and number.
// An enum and no option: free is an answer of its own.
#[derive(Clone, Copy)]
pub enum Choice {
    Free,
    Locked {
        message: usize,
        event: usize,
        steps: usize,
        met: usize,
        number: usize,
    },
}

// word 0 free, 1 locked (one is the message, two the event, three the steps; length and choices are the first locked list's), 2 refused
// (one is the number, two the line).
#[repr(C)]
#[derive(Clone, Copy)]
pub struct ChoiceCheckAnswer {
    pub word: u32,
    pub one: u32,
    pub two: u32,
    pub three: u32,
    pub length: u32,
    pub choices: u32,
}

// The answer's numbers. Each fits 32 bits.
pub fn numbers(answer: Result<Choice, Refusal>) -> ChoiceCheckAnswer
    requires { Small (numbers_for answer) }
    ensures { numbers_in result ≡ numbers_for answer }
{
    match answer {
        Ok(Choice::Free) => ChoiceCheckAnswer {
            word: FREE,
            one: 0,
            two: 0,
            three: 0,
            length: 0,
            choices: 0,
        },
        Ok(
            Choice::Locked {
                message,
                event,
                steps,
                met,
                number,
            },
        ) => ChoiceCheckAnswer {
            word: LOCKED,
            one: message as u32,
            two: event as u32,
            three: steps as u32,
            length: met as u32,
            choices: number as u32,
        },
        Err(refusal) => ChoiceCheckAnswer {
            word: REFUSED,
            one: refusal.reason.number(),
            two: refusal.line as u32,
            three: 0,
            length: 0,
            choices: 0,
        },
    }
}

// The number of a list of so many options, with bit k set where its A row k takes n. The highest bit of the list's place is A row 0.
pub fn choices_of(list: usize, met: usize) -> usize
    requires { met ≤ choices_most }
    ensures { result ≡ choices_number (take met (options_of list)) }
{
    let mut number = 0;
    for k in (0..met).rev() {
        number *= 2;
        if levels::takes_second(list, k) {
            number += 1;
        }
    }
    number
}
