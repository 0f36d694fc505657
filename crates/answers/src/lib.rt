// The answers of the calls as C gets them: a word, and numbers of 32 bits.
#![tactic(auto)]

mod checks;
mod cures;
mod tables;
mod tapped;

pub use crate::checks::{ChannelCheckAnswer, checked};
pub use crate::cures::{CureSheetAnswer, cured};
pub use crate::tables::{SendersCheckAnswer, judged};
pub use crate::tapped::{TapsCheckAnswer, fitted};
