//! The link: its two ends, its twelve calls and runs of them, the law over all histories, and the timer question.

#![tactic(auto)]

mod calls;
mod events;
mod histories;
mod huts;
mod joinedruns;
mod links;
mod places;
mod refusals;
mod runs;
mod senders;
mod steps;
mod timers;
mod words;

pub use calls::Call;
pub use events::{Answer, Event};
pub use histories::histories_are_truthful;
pub use huts::Hut;
pub use joinedruns::NotRun;
pub use links::Link;
pub use refusals::LinkRefusal;
pub use senders::Sender;
pub use timers::{MOST_REPEATS, TimerRefusal, timers_fit};
pub use words::{Heard, Position, Word};
