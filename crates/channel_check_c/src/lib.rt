// The channel check for C: each call of the header hands its arguments to the call of the same name in channel_check, and promises the same.
#![tactic(auto)]

ghost use Rattle.std.specs.Prelude.{◌≡◌, []};
ghost use Rattle.model.specs.Verdict.{Checked};
ghost use Rattle.model.specs.EverySheet.{EverySheet};
ghost use Rattle.model.specs.Choice.{ChoiceChecked};
ghost use Rattle.model.specs.Waits.{TraceChecked};
ghost use Rattle.model.specs.Monitor.{Opened, Stepped, Switched, WholeLists};
ghost use Rattle.model.specs.Cure.{CureChecked};
ghost use Rattle.model.specs.Dispatcher as dispatchers;
ghost use Rattle.model.specs.Dispatcher.{empty_dispatcher, admit, turn, cancel, Serves};
ghost use Rattle.model.specs.Senders.{TableJudged, PermittedCheck};
ghost use Rattle.model.specs.Taps.{TapsChecked};
ghost use Rattle.model.specs.Holdings.{MessagesListed, RacesTold};
ghost use Rattle.model.specs.Standing.{Stands};
ghost use Rattle.model.specs.Rounds.{RoundsChecked};
ghost use Rattle.choice_answer.specs.Bridge as chosen;
ghost use Rattle.dispatcher.specs.Bridge as bridge;
ghost use Rattle.dispatcher.specs.Bridge.{dispatcher_in, Holds, emptied, lent};
ghost use Rattle.monitor.specs.Bridge.{held_in, monitor_of, zeros, answer_in};
ghost use Rattle.trace_answer.specs.Numbers as replayed;
ghost use Rattle.answers.specs.Numbers.{numbers_in};
ghost use Rattle.answers.specs.Cures as cured;
ghost use Rattle.answers.specs.Tables as judged;
ghost use Rattle.answers.specs.Tapped as fitted;
ghost use Rattle.sheet_messages.specs.Listing as listed;
ghost use Rattle.sheet_races.specs.Numbers as raced;
ghost use Rattle.monitor_standing.specs.Bridge as stood;
ghost use Rattle.rounds.specs.Numbers as repeated;
ghost use Rattle.channel_check.specs.Version.{version};

use answers::{ChannelCheckAnswer, CureSheetAnswer, SendersCheckAnswer, TapsCheckAnswer};
use choice_answer::ChoiceCheckAnswer;
use dispatcher::{Dispatcher, DispatcherAnswer};
use monitor::{Monitor, MonitorAnswer};
use monitor_standing::MonitorStandingAnswer;
use rounds::RoundsCheckAnswer;
use sheet_messages::SheetMessagesAnswer;
use sheet_races::SheetRacesAnswer;
use trace_answer::TraceCheckAnswer;

// The check: any text, any channel code, any lengths. With it goes what is so of every sheet, by the requests that brought no call.
#[unsafe(no_mangle)]
pub extern "C" fn channel_check(
    text: &[u8],
    code: u32,
    scratch: &mut [u64],
    trace: &mut [u8],
) -> ChannelCheckAnswer
    ensures checked { Checked text.now code scratch.old scratch.new trace.old trace.new (numbers_in result) }
    ensures every_sheet { EverySheet }
{
    channel_check::channel_check(text, code, scratch, trace)
}

// A trace from another tool: any text, any channel code, any trace, any lengths.
#[unsafe(no_mangle)]
pub extern "C" fn trace_check(
    text: &[u8],
    code: u32,
    scratch: &mut [u64],
    trace: &[u8],
) -> TraceCheckAnswer
    ensures { TraceChecked text.now code scratch.old scratch.new trace.now (replayed.numbers_in result) result.waits }
{
    channel_check::trace_check(text, code, scratch, trace)
}

// A file with choices between two subprograms: any text, any channel code, any lengths.
#[unsafe(no_mangle)]
pub extern "C" fn choice_check(
    text: &[u8],
    code: u32,
    scratch: &mut [u64],
    trace: &mut [u8],
) -> ChoiceCheckAnswer
    ensures { ChoiceChecked text.now code scratch.old scratch.new trace.old trace.new (chosen.numbers_in result) }
{
    channel_check::choice_check(text, code, scratch, trace)
}

// A monitor of a run is opened: any text, any channel code, any length.
#[unsafe(no_mangle)]
pub extern "C" fn monitor_open(text: &[u8], code: u32, scratch: &mut [u64]) -> MonitorAnswer
    ensures { Opened held_in monitor_of zeros text.now code scratch.old scratch.new (answer_in result) × WholeLists held_in monitor_of zeros }
{
    channel_check::monitor_open(text, code, scratch)
}

// A step of the run: any monitor, any step code and message, any text, any length.
#[unsafe(no_mangle)]
pub extern "C" fn monitor_step(
    state: Monitor,
    kind: u32,
    message: u32,
    text: &[u8],
    scratch: &mut [u64],
) -> MonitorAnswer
    ensures { Stepped held_in monitor_of zeros state kind message text.now scratch.old scratch.new (answer_in result) × WholeLists held_in monitor_of zeros }
{
    channel_check::monitor_step(state, kind, message, text, scratch)
}

// A switch to another channel: any monitor, any code, any text, any length.
#[unsafe(no_mangle)]
pub extern "C" fn monitor_switch(
    state: Monitor,
    code: u32,
    text: &[u8],
    scratch: &mut [u64],
) -> MonitorAnswer
    ensures { Switched held_in monitor_of zeros state code text.now scratch.old scratch.new (answer_in result) × WholeLists held_in monitor_of zeros }
{
    channel_check::monitor_switch(state, code, text, scratch)
}

// The loosest sheet that is free, as text: any text, any lengths.
#[unsafe(no_mangle)]
pub extern "C" fn cure_sheet(text: &[u8], scratch: &mut [u64], output: &mut [u8]) -> CureSheetAnswer
    ensures { CureChecked text.now scratch.old scratch.new output.old output.new (cured.numbers_in result) }
{
    channel_check::cure_sheet(text, scratch, output)
}

// A dispatcher that holds no job.
#[unsafe(no_mangle)]
pub extern "C" fn dispatcher_empty() -> Dispatcher
    ensures value { result ≡ emptied }
    ensures result_value { dispatcher_in result ≡ empty_dispatcher }
{
    channel_check::dispatcher_empty()
}

// A job is admitted: any dispatcher, any sheets, lengths, codes and words.
#[unsafe(no_mangle)]
pub extern "C" fn dispatcher_admit(
    state: Dispatcher,
    sheets: &[u8],
    lengths: &[u32],
    codes: &[u32],
    words: &mut [u64],
) -> DispatcherAnswer
    ensures { Serves dispatcher_in Holds state (admit (lent sheets.now lengths.now codes.now words.old)) words.new [] (bridge.answer_in result) × dispatchers.WholeLists dispatcher_in Holds emptied }
{
    channel_check::dispatcher_admit(state, sheets, lengths, codes, words)
}

// A turn of the head of the queue: any dispatcher, any sheets, lengths, codes, words and trace. Sheets, lengths and codes are not read.
#[unsafe(no_mangle)]
pub extern "C" fn dispatcher_turn(
    state: Dispatcher,
    sheets: &[u8],
    lengths: &[u32],
    codes: &[u32],
    words: &mut [u64],
    trace: &mut [u8],
) -> DispatcherAnswer
    ensures { Serves dispatcher_in Holds state (turn (lent sheets.now lengths.now codes.now words.old) trace.old) words.new trace.new (bridge.answer_in result) × dispatchers.WholeLists dispatcher_in Holds emptied }
{
    channel_check::dispatcher_turn(state, sheets, lengths, codes, words, trace)
}

// The job with the number leaves: any dispatcher, any number, any sheets, lengths, codes and words. Sheets, lengths and codes are not read.
#[unsafe(no_mangle)]
pub extern "C" fn dispatcher_cancel(
    state: Dispatcher,
    number: u32,
    sheets: &[u8],
    lengths: &[u32],
    codes: &[u32],
    words: &mut [u64],
) -> DispatcherAnswer
    ensures { Serves dispatcher_in Holds state (cancel number (lent sheets.now lengths.now codes.now words.old)) words.new [] (bridge.answer_in result) × dispatchers.WholeLists dispatcher_in Holds emptied }
{
    channel_check::dispatcher_cancel(state, number, sheets, lengths, codes, words)
}

// A table of permitted senders: any bytes.
#[unsafe(no_mangle)]
pub extern "C" fn senders_check(table: &[u8]) -> SendersCheckAnswer
    ensures { TableJudged table.now (judged.numbers_in result) }
{
    channel_check::senders_check(table)
}

// The check with a table of permitted senders: any text, any channel code, any table, any lengths.
#[unsafe(no_mangle)]
pub extern "C" fn permitted_check(
    text: &[u8],
    code: u32,
    scratch: &mut [u64],
    trace: &mut [u8],
    table: &[u8],
) -> ChannelCheckAnswer
    ensures { PermittedCheck text.now code scratch.old scratch.new trace.old trace.new table.now (numbers_in result) }
{
    channel_check::permitted_check(text, code, scratch, trace, table)
}

// One course of events for two lists of events, or the event that would have to precede itself: any text, any lists, any lengths.
#[unsafe(no_mangle)]
pub extern "C" fn taps_check(
    text: &[u8],
    scratch: &mut [u64],
    first: &[u16],
    second: &[u16],
    output: &mut [u16],
) -> TapsCheckAnswer
    ensures { TapsChecked text.now scratch.old scratch.new first.now second.now output.old output.new (fitted.numbers_in result) }
{
    channel_check::taps_check(text, scratch, first, second, output)
}

// The messages of a sheet with their lines and boards: any text, any lengths.
#[unsafe(no_mangle)]
pub extern "C" fn sheet_messages(
    text: &[u8],
    scratch: &mut [u64],
    output: &mut [u16],
) -> SheetMessagesAnswer
    ensures { MessagesListed text.now scratch.old scratch.new output.old output.new (listed.numbers_in result) }
{
    channel_check::sheet_messages(text, scratch, output)
}

// All races of a sheet on a channel: any text, any channel code, any lengths.
#[unsafe(no_mangle)]
pub extern "C" fn sheet_races(
    text: &[u8],
    code: u32,
    scratch: &mut [u64],
    output: &mut [u16],
) -> SheetRacesAnswer
    ensures { RacesTold text.now code scratch.old scratch.new output.old output.new (raced.numbers_in result) }
{
    channel_check::sheet_races(text, code, scratch, output)
}

// Where a monitored run stands: any monitor, any text, any length.
#[unsafe(no_mangle)]
pub extern "C" fn monitor_standing(
    state: Monitor,
    text: &[u8],
    scratch: &mut [u64],
) -> MonitorStandingAnswer
    ensures { Stands held_in monitor_of state text.now scratch.old scratch.new (stood.numbers_in result) result.waits }
{
    channel_check::monitor_standing(state, text, scratch)
}

// A sheet that is repeated: any text, any channel code, any lengths.
#[unsafe(no_mangle)]
pub extern "C" fn rounds_check(
    text: &[u8],
    code: u32,
    scratch: &mut [u64],
    trace: &mut [u8],
) -> RoundsCheckAnswer
    ensures { RoundsChecked text.now code scratch.old scratch.new trace.old trace.new result.rounds (repeated.numbers_in result) }
{
    channel_check::rounds_check(text, code, scratch, trace)
}

// The version of the calls and of their structs.
#[unsafe(no_mangle)]
pub extern "C" fn channel_check_version() -> u32
    ensures { result ≡ version }
{
    channel_check::channel_check_version()
}
