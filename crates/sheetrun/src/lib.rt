//! Runs of call sheets, and all that they print.

#![tactic(auto)]

mod prints;
mod runs;
mod streams;

pub use prints::sheet_lines;
pub use runs::{RainedLink, run_by_marks, sheet_events};
pub use streams::run_sheet;
