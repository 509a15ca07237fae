//! The worked examples, computed by the library, as one function whose contract is all of them.

#![tactic(auto)]

mod examples;
mod messages;
mod questions;

pub use examples::{Examples, worked_examples};
pub use messages::MessageExample;
pub use questions::{PieceExample, RequestExample, TimerExample};
