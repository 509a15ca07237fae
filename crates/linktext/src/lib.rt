//! The printed lines of a link.

#![tactic(auto)]

mod lines;

pub use lines::{call_line, event_lines, outcome_line, push_call};
