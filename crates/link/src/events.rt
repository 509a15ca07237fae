//! A call and what was answered.
use crate::calls::Call;
use crate::refusals::LinkRefusal;
use crate::words::{Heard, Position, Word};

/// What an accepted call answers.
#[derive(Clone, Copy, Debug, PartialEq, Eq)]
pub enum Answer<T> {
    /// Nothing but that it was accepted.
    Done,
    /// What became of the frame that was polled for.
    Polled(Heard),
    /// The load that the hut is told, with its position.
    Told(Position, T),
    /// How the message ended.
    Confirmed(Word),
}

/// A call with its answer.
#[derive(Clone, Copy, Debug, PartialEq, Eq)]
pub struct Event<T> {
    /// The call.
    pub call: Call,
    /// What it answered, or why it was turned down.
    pub answer: Result<Answer<T>, LinkRefusal>,
}
