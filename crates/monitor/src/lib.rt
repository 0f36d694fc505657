// A live monitor: a run's state between calls, with the channel code in force. Each call hands the next monitor back.
#![tactic(auto)]

ghost use Rattle.std.specs.Prelude.{◌≡◌, ◌*◌, ◌<◌, length, Ok};
ghost use Rattle.model.specs.Limits.{channels, messages_most};
ghost use Rattle.model.specs.Answer.{sheet_of};
ghost use Rattle.model.specs.Monitor.{Opened, Stepped, Switched, WholeLists};
ghost use Rattle.relation.specs.Width.{width};
ghost use Rattle.relation.specs.Scenario.{scenario_in};
ghost use Rattle.scenario.specs.Contract.{Fit};
ghost use Rattle.step.specs.Steps.{step_or_none};
ghost use Rattle.lent.specs.Lent.{LineFits};
ghost use Rattle.monitor.specs.Bridge.{held_in, monitor_of, zeros, answer_in, answer_of, Lends, Begins, Takes, Steps, Switches};

use answer_words::monitored::{FORBIDDEN, REFUSED, TAKEN};
use board::Scenario;
use outcome::{Reason, Refusal};
use relation::WIDTH;
use run::{Buffer, Run};
use step::Step;

// The state of a run, and the channel code in force.
#[repr(C)]
#[derive(Clone, Copy)]
pub struct Monitor {
    pub run: Run,
    pub code: u32,
}

// word 0 taken, 1 forbidden, 2 refused (one is the number, two the line); and the monitor to go on with.
#[repr(C)]
#[derive(Clone, Copy)]
pub struct MonitorAnswer {
    pub word: u32,
    pub one: u32,
    pub two: u32,
    pub next: Monitor,
}

// What a call to a monitor comes to, as C gets it, with the monitor as the call leaves it, which is lent, since a value is copied whole wherever
// it goes: taken or not, where the rule forbids a step; or the refusal.
fn answered(next: &Monitor, outcome: Result<bool, Refusal>) -> MonitorAnswer
    requires { LineFits outcome }
    ensures { answer_in result ≡ answer_of next.now outcome }
{
    let (word, one, two) = match outcome {
        Ok(true) => (TAKEN, 0, 0),
        Ok(false) => (FORBIDDEN, 0, 0),
        Err(refusal) => (REFUSED, refusal.reason.number(), refusal.line as u32),
    };
    MonitorAnswer {
        word,
        one,
        two,
        next: *next,
    }
}

// What a refused opening hands back: all zeros.
fn zero() -> Monitor
    ensures { result ≡ zeros 0 }
{
    Monitor {
        run: Run {
            done: [0; WIDTH],
            way: [0; WIDTH],
            buffers: [Buffer { held: [0; WIDTH] }; model::BOARDS],
        },
        code: 0,
    }
}

// Refusals 1 and 2, in this order.
pub fn lent(code: u32, scratch: &[u64]) -> Result<(), Refusal>
    ensures { Lends code (length scratch.now) result }
{
    if model::CHANNELS <= code as usize {
        return Err(Reason::Channel.at(0));
    }
    if scratch.len() < model::SCRATCH_LEAST {
        return Err(Reason::Bench.at(0));
    }
    Ok(())
}

// A text that is a sheet, with a code that is a channel's: a run at its start goes on under the code.
fn begin(next: &mut Monitor, text: &[u8], code: u32, words: &mut [u64]) -> Result<bool, Refusal>
    requires words_len { length words.old ≡ 2 * messages_most * width }
    requires at_start { next.old ≡ zeros 0 }
    ensures begins { Begins (sheet_of text.now) code (answer_of next.new result) }
    ensures fits { LineFits result }
{
    let mut boards = [0u8; model::EVENTS_MOST];
    scenario::scenario_of(text, &mut boards, words)?;
    next.code = code;
    Ok(true)
}

impl Monitor {
    // The step told, by the rules of the scenario under the code in force: whether it is taken.
    fn take(&mut self, told: Option<Step>, words: &[u64], boards: &[u8], count: usize) -> bool
        requires fit { Fit count boards.now words.now }
        requires code_lt_channels { self.old.code < channels }
        ensures { Takes (scenario_in count boards.now words.now) self.old (step_or_none told) (answer_of self.new (Ok result)) }
    {
        let Some(step) = told else {
            return false;
        };
        let mut masks = [0u64; board::MASK_WORDS];
        board::board_masks(boards, count, &mut masks);
        let scenario = Scenario {
            words,
            masks: &masks,
            boards,
            count,
        };
        let code = self.code;
        let c = channel_table::channel_of(code as usize);
        let run = self.run;
        if channel::allowed_in(run, &scenario, c, step) {
            self.run = next_state::next(run, boards, step);
            return true;
        }
        false
    }

    // The step told, where the text is a sheet: whether it is taken.
    fn judge_step(
        &mut self,
        told: Option<Step>,
        text: &[u8],
        words: &mut [u64],
    ) -> Result<bool, Refusal>
        requires words_len { length words.old ≡ 2 * messages_most * width }
        requires code_lt_channels { self.old.code < channels }
        ensures steps { Steps (sheet_of text.now) self.old (step_or_none told) (answer_of self.new result) }
        ensures fits { LineFits result }
    {
        let mut boards = [0u8; model::EVENTS_MOST];
        let count = scenario::scenario_of(text, &mut boards, words)?;
        Ok(self.take(told, words, &boards, count))
    }

    // The switch to a channel's code, where the text is a sheet: the state passes over whole.
    fn judge_switch(&mut self, code: u32, text: &[u8], words: &mut [u64]) -> Result<bool, Refusal>
        requires words_len { length words.old ≡ 2 * messages_most * width }
        requires code_lt_channels { code < channels }
        ensures switches { Switches (sheet_of text.now) self.old code (answer_of self.new result) }
        ensures fits { LineFits result }
    {
        let mut boards = [0u8; model::EVENTS_MOST];
        // Not a `?`: the edit switch_refusal_ahead_of_the_sheets changes what is handed on here.
        if let Err(refusal) = scenario::scenario_of(text, &mut boards, words) {
            return Err(refusal);
        }
        if switching::is_barred(self.run, code as usize) {
            return Err(Reason::Switch.at(0));
        }
        self.code = code;
        Ok(true)
    }

    // A monitor for a sheet on a channel. Refusals 1 and 2 touch nothing; after every other answer the scratch is cleared.
    fn opened(
        next: &mut Monitor,
        text: &[u8],
        code: u32,
        scratch: &mut [u64],
    ) -> Result<bool, Refusal>
        requires at_start { next.old ≡ zeros 0 }
        ensures promise { Opened held_in monitor_of zeros text.now code scratch.old scratch.new (answer_of next.new result) }
        ensures fits { LineFits result }
    {
        lent(code, scratch)?;
        let end = model::SCRATCH_LEAST;
        let outcome = begin(next, text, code, &mut scratch[..end]);
        relation::clear(scratch, end);
        outcome
    }

    // A step, if the rules allow it: whether it is taken.
    fn stepped(
        &mut self,
        kind: u32,
        message: u32,
        text: &[u8],
        scratch: &mut [u64],
    ) -> Result<bool, Refusal>
        ensures promise { Stepped held_in monitor_of zeros self.old kind message text.now scratch.old scratch.new (answer_of self.new result) }
        ensures fits { LineFits result }
    {
        lent(self.code, scratch)?;
        let told = Step::told(kind as usize, message as usize);
        let all = model::SCRATCH_LEAST;
        let outcome = self.judge_step(told, text, &mut scratch[..all]);
        relation::clear(scratch, all);
        outcome
    }

    // A switch, if no message bars it.
    fn switched(&mut self, code: u32, text: &[u8], scratch: &mut [u64]) -> Result<bool, Refusal>
        ensures promise { Switched held_in monitor_of zeros self.old code text.now scratch.old scratch.new (answer_of self.new result) }
        ensures fits { LineFits result }
    {
        lent(code, scratch)?;
        let least = model::SCRATCH_LEAST;
        let outcome = self.judge_switch(code, text, &mut scratch[..least]);
        relation::clear(scratch, least);
        outcome
    }

    // Opens a monitor for a sheet on a channel. Refusals 1 and 2 touch nothing; behind every other answer the scratch is cleared.
    pub fn open(text: &[u8], code: u32, scratch: &mut [u64]) -> MonitorAnswer
        ensures { Opened held_in monitor_of zeros text.now code scratch.old scratch.new (answer_in result) × WholeLists held_in monitor_of zeros }
    {
        let mut next = zero();
        let outcome = Monitor::opened(&mut next, text, code, scratch);
        answered(&next, outcome)
    }

    // A step, by its code and message, with the sheet's text again.
    pub fn step(self, kind: u32, message: u32, text: &[u8], scratch: &mut [u64]) -> MonitorAnswer
        ensures { Stepped held_in monitor_of zeros self kind message text.now scratch.old scratch.new (answer_in result) × WholeLists held_in monitor_of zeros }
    {
        let mut next = self;
        let outcome = next.stepped(kind, message, text, scratch);
        answered(&next, outcome)
    }

    // A switch to a channel code, with the sheet's text again.
    pub fn switch(self, code: u32, text: &[u8], scratch: &mut [u64]) -> MonitorAnswer
        ensures { Switched held_in monitor_of zeros self code text.now scratch.old scratch.new (answer_in result) × WholeLists held_in monitor_of zeros }
    {
        let mut next = self;
        let outcome = next.switched(code, text, scratch);
        answered(&next, outcome)
    }
}
