// Whether the state of a run bars a switch to another channel (refusal 14).
#![tactic(auto)]

ghost use Rattle.std.specs.Prelude.{◌≡◌, ◌&&◌, eqb, ◌*◌, ◌<◌};
ghost use Rattle.model.specs.Limits.{channels, messages_most};
ghost use Rattle.model.specs.Bounded.{how_many};
ghost use Rattle.model.specs.Monitor.{is_barred};
ghost use Rattle.relation.specs.Rows.{has};
ghost use Rattle.run.specs.State.{in_row, state_of};
ghost use Rattle.switching.specs.TwoOrMore.{half_word, holds_two, is_full};

use relation::{SENDS, WIDTH};
use run::Run;

// The channel with room for one message under way.
const TOKEN_RING: usize = 5;

// How many messages a word of a row has.
fn messages_of(word: u64) -> usize
    ensures { result ≡ how_many half_word (λ j. has word (2 * j)) }
{
    (word & SENDS).count_ones() as usize
}

// How many messages a row has, as bits of their sends.
fn messages_in(row: [u64; WIDTH]) -> usize
    ensures { result ≡ how_many messages_most (λ m. in_row row (2 * m)) }
{
    let mut count = 0;
    for word in row {
        count += messages_of(word);
    }
    count
}

// Some board holds two messages or more.
fn holds_two(run: Run) -> bool
    ensures { result ≡ holds_two (state_of run) }
{
    for buffer in run.buffers {
        if 2 <= messages_in(buffer.held) {
            return true;
        }
    }
    false
}

// An eager channel has no room for a board that holds two messages or more.
fn bars_buffers(run: Run, eager: bool) -> bool
    ensures { result ≡ (eager && holds_two (state_of run)) }
{
    eager && holds_two(run)
}

// Token ring has no room for two messages or more under way.
fn bars_way(run: Run, code: usize) -> bool
    ensures { result ≡ (eqb code 5 && is_full (state_of run)) }
{
    code == TOKEN_RING && 2 <= messages_in(run.way)
}

// The state bars a switch to the code.
pub fn is_barred(run: Run, code: usize) -> bool
    requires { code < channels }
    ensures { result ≡ is_barred code (state_of run) }
{
    let c = channel_table::channel_of(code);
    bars_buffers(run, c.eager) || bars_way(run, code)
}
