// The sheet and the channel that an admission is lent in a place, and the scenario of the sheet in the place's words.
#![tactic(auto)]

ghost use Rattle.std.specs.Prelude.{◌≡◌, ◌<◌, ◌≤◌, length, get_or};
ghost use Rattle.model.specs.Limits.{channels, text_most, jobs_most, job_words_least};
ghost use Rattle.lent_sheet.specs.Sheet.{ReadsSheet};

use outcome::Refusal;

// The length lent in a place; one that the slice does not have counts as 0.
pub fn length_at(lengths: &[u32], place: usize) -> usize
    ensures { result ≡ get_or lengths.now place 0 }
{
    lengths.get(place).copied().unwrap_or(0) as usize
}

// The code lent in a place; one that the slice does not have counts as 6, which is no channel's.
pub fn code_at(codes: &[u32], place: usize) -> usize
    ensures { result ≡ get_or codes.now place channels }
{
    codes.get(place).map_or(model::CHANNELS, |c| *c as usize)
}

// Reads the sheet lent in a place, of so many bytes, into the place's words: bytes that the slice does not have are not there.
pub fn read_sheet(
    sheets: &[u8],
    size: usize,
    place: usize,
    boards: &mut [u8; model::EVENTS_MOST],
    words: &mut [u64],
) -> Result<usize, Refusal>
    requires place_lt_jobs_most { (place < jobs_most) × (size ≤ text_most) }
    requires job_words_least_in_bounds { job_words_least ≤ length words.old }
    ensures { ReadsSheet sheets.now size place words.old boards.new words.new result }
{
    let from = (place * model::TEXT_MOST).min(sheets.len());
    let to = (from + size).min(sheets.len());
    let first = place * model::SCRATCH_LEAST;
    let last = first + model::SCRATCH_LEAST;
    scenario::scenario_of(&sheets[from..to], boards, &mut words[first..last])
}
