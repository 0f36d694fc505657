// The model is the definitions of specs/ and the theorems of proofs/. What stands here are its limits, for the code to use:
// each is a number of specs/Limits, Place or Waits, and a proof that uses one ties the two together.
#![tactic(auto)]

// The sheet file: bytes, rows, the largest number of a field, sheets, boards.
pub const TEXT_MOST: usize = 8192;

pub const ROWS_MOST: usize = 512;

pub const NUMBER_MOST: usize = 511;

pub const SHEETS: usize = 32;

pub const BOARDS: usize = 16;

// The line of row 0, behind the heading.
pub const FIRST_LINE: usize = 2;

// Messages of a block and of a walk, and their events.
pub const MESSAGES_MOST: usize = 256;

pub const EVENTS_MOST: usize = 2 * MESSAGES_MOST;

// Levels and calls of a walk.
pub const LEVELS: usize = 8;

pub const CALLS_MOST: usize = 1024;

// A rows of a walk.
pub const CHOICES_MOST: usize = 8;

// The words of a row of the relation "before".
pub const ROW_WORDS: usize = 8;

// The channels, and the buffers lent: the relation alone is in the scratch.
pub const CHANNELS: usize = 6;

pub const SCRATCH_LEAST: usize = EVENTS_MOST * ROW_WORDS;

pub const TRACE_LEAST: usize = 2 * (3 * MESSAGES_MOST);

// The output of a cured sheet.
pub const SHEET_OUTPUT_LEAST: usize = TEXT_MOST;

// The output of the two taps.
pub const TAP_NUMBERS_LEAST: usize = 512;

// The table of permitted senders: rules, the largest set of boards, the largest verdict.
pub const RULES_MOST: usize = 64;

pub const SET_MOST: usize = 65535;

pub const VERDICT_MOST: usize = 1;

// The dispatcher: jobs, their numbers, and the words of all places.
pub const JOBS_MOST: usize = 8;

pub const JOB_NUMBERS: usize = 65536;

pub const JOB_WORDS_LEAST: usize = JOBS_MOST * SCRATCH_LEAST;

// What stands for a board that waits for no event (specs/Waits).
pub const NO_WAIT: u16 = 65535;
