//! The store: a channel that keeps one frame and loses none.
ghost use Rattle.std.specs.Prelude.{◌≡◌, List, [], option_to_list};
ghost use Rattle.loads.specs.declared.frames.Frame.{Frame};
ghost use Rattle.channels.specs.Singles.{stores};

use channel::{Channel, Full, Poll};
use loads::Frame;
use std::marker::Model;

/// A channel with room for one frame, which it neither delays nor loses.
#[derive(Drop)]
pub struct Store<T> {
    frame: Option<Frame<T>>,
}

// Clauses see the frames that wait.
impl<T> Model for Store<T> {
    ghost Value = { List (Frame T) };

    ghost view = { λ store. option_to_list store.frame };
}

impl<T> Store<T> {
    /// A store in which nothing waits.
    pub fn new() -> Store<T>
        ensures answer { result ≡ [] }
    {
        Store { frame: None }
    }
}

impl<T: Copy> Channel<T> for Store<T> {
    ghost waiting = { stores.waiting };

    ghost polls = { stores.polls };

    fn put(&mut self, frame: &Frame<T>) -> Result<(), Full> {
        if self.holds() {
            return Err(Full);
        }
        self.frame = Some(*frame);
        Ok(())
    }

    fn poll(&mut self) -> Poll<T> {
        self.frame.take().map_or(Poll::Empty, Poll::Arrived)
    }

    fn holds(&self) -> bool {
        self.frame.is_some()
    }
}
