//! What a poll answers.
ghost use Rattle.std.specs.Prelude.{◌≡◌};
ghost use Rattle.channel.specs.Words.{poll_word};

use loads::Frame;

/// The four answers of a poll.
#[derive(Clone, Copy, Debug, PartialEq, Eq)]
pub enum Poll<T> {
    /// Nothing waits.
    Empty,
    /// A frame waits, and goes on waiting.
    Still,
    /// The oldest frame has come through.
    Arrived(Frame<T>),
    /// The oldest frame is gone.
    Lost,
}

impl<T> Poll<T> {
    /// The word by which this answer is known outside. No `Display`, since a frame that arrived is
    /// printed beside it.
    pub fn word(&self) -> &'static str
        ensures answer { result.now ≡ poll_word self.now }
    {
        match self {
            Poll::Empty => "EMPTY",
            Poll::Still => "STILL",
            Poll::Arrived(_) => "ARRIVED",
            Poll::Lost => "LOST",
        }
    }
}
