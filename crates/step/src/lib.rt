// A step of a run, and its two bytes in a trace: the kind, then the message.
#![tactic(auto)]

ghost use Rattle.std.specs.Prelude.{◌≡◌, ◌<◌};
ghost use Rattle.model.specs.Limits.{messages_most};
ghost use Rattle.model.specs.Schedule.{kind_of, step_told};
ghost use Rattle.step.specs.Steps.{step_in, message_in, event_in, step_or_none};

use answer_words::kinds;

// The kinds, in the width that a caller's number is compared in.
const SEND: usize = kinds::SEND as usize;

const DELIVER: usize = kinds::DELIVER as usize;

const CONSUME: usize = kinds::CONSUME as usize;

// A message is sent, delivered or consumed.
#[derive(Clone, Copy)]
pub enum Step {
    Send(usize),
    Deliver(usize),
    Consume(usize),
}

impl Step {
    // The byte of its kind.
    pub fn kind(self) -> u8
        ensures { result ≡ kind_of (step_in self) }
    {
        match self {
            Step::Send(_) => kinds::SEND,
            Step::Deliver(_) => kinds::DELIVER,
            Step::Consume(_) => kinds::CONSUME,
        }
    }

    // Its message.
    pub fn message(self) -> usize
        ensures { result ≡ message_in self }
    {
        match self {
            Step::Send(m) => m,
            Step::Deliver(m) => m,
            Step::Consume(m) => m,
        }
    }

    // The event on whose board it is taken: its message's send; else, to deliver or to consume it, the receive.
    pub fn event(self) -> usize
        requires { message_in self < messages_most }
        ensures { result ≡ event_in self }
    {
        let send = 2 * self.message();
        let receive = send + 1;
        match self {
            Step::Send(_) => send,
            Step::Deliver(_) => receive,
            Step::Consume(_) => receive,
        }
    }

    // The step that a kind and a message tell; any other kind is no step.
    pub fn told(kind: usize, m: usize) -> Option<Step>
        ensures { step_or_none result ≡ step_told kind m }
    {
        match kind {
            SEND => Some(Step::Send(m)),
            DELIVER => Some(Step::Deliver(m)),
            CONSUME => Some(Step::Consume(m)),
            _ => None,
        }
    }
}
