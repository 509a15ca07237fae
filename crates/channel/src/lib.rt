//! The rule that every channel keeps, and what follows from it. Nothing here is a channel.

#![tactic(auto)]

mod polls;
mod refusals;
mod rows;
mod rules;

pub use polls::Poll;
pub use refusals::Full;
pub use rows::{Use, Used, make_uses, rows_conserve_frames};
pub use rules::Channel;
