//! The channel rule, as a trait.
ghost use Rattle.std.specs.Prelude.{◌≡◌, List, ⊤};
ghost use Rattle.loads.specs.declared.frames.Frame.{Frame};
ghost use Rattle.channel.specs.declared.polls.Poll.{Poll};
ghost use Rattle.channel.specs.Rules.{put_answer, put_leaves, IsAllowed, poll_leaves, held};

use crate::polls::Poll;
use crate::refusals::Full;
use loads::Frame;

/// A channel for frames of one load kind. It stands for the list of frames that wait in it. The
/// rule says nothing of loads, so any type will do for them; an implementation asks for what it
/// needs.
pub trait Channel<T> {
    /// The frames that wait, oldest first.
    ghost waiting: { Self → List (Frame T) };

    /// What an implementation says of its put besides the rule: itself before, the frame, itself
    /// after.
    ghost puts: { Self → Frame T → Self → Type 0 } = { λ _ _ _. ⊤ };

    /// What an implementation says of its poll besides the rule: itself before, the answer, itself
    /// after.
    ghost polls: { Self → Poll T → Self → Type 0 } = { λ _ _ _. ⊤ };

    /// Gives the channel a frame. Refused by `Full` where a frame waits, and then what waits stays.
    fn put(&mut self, frame: &Frame<T>) -> Result<(), Full>
        ensures answer { result ≡ put_answer (waiting self.old) }
        ensures after { waiting self.new ≡ put_leaves (waiting self.old) frame.now }
        ensures own { puts self.old frame.now self.new };

    /// Asks what became of the oldest frame. Open: which of the allowed answers comes.
    fn poll(&mut self) -> Poll<T>
        ensures open_answer { IsAllowed (waiting self.old) result }
        ensures after { waiting self.new ≡ poll_leaves (waiting self.old) result }
        ensures own { polls self.old result self.new };

    /// Whether a frame waits.
    fn holds(&self) -> bool
        ensures answer { result ≡ held (waiting self.now) };
}
