// What a call is lent: a channel's code (refusal 1), and buffers that are long enough (refusal 2).
#![tactic(auto)]

ghost use Rattle.lent.specs.Lent.{IsChannel, IsLong};

use outcome::{Reason, Refusal};

// The channel of a code from C.
pub fn channel(code: u32) -> Result<usize, Refusal>
    ensures { IsChannel code result }
{
    let channel = code as usize;
    if model::CHANNELS <= channel {
        return Err(Reason::Channel.at(0));
    }
    Ok(channel)
}

// A buffer of this length has at least so many places.
pub fn at_least(least: usize, length: usize) -> Result<(), Refusal>
    ensures { IsLong least length result }
{
    if length < least {
        return Err(Reason::Bench.at(0));
    }
    Ok(())
}
