//! The hop: two channels in a row.
ghost use Rattle.std.specs.Prelude.{◌≡◌};
ghost use Rattle.channels.specs.Hops.{HopState, hops};

use channel::{Channel, Full, Poll};
use loads::Frame;
use std::marker::Model;

/// Two channels in a row: a frame is put into near and comes out of far.
#[derive(Drop)]
pub struct Hop<N, F> {
    near: N,
    far: F,
}

// Clauses see the two channels, and name no private field.
impl<N, F> Model for Hop<N, F> {
    ghost Value = { HopState N F };

    ghost view = { λ hop. record { near = hop.near; far = hop.far } };
}

impl<N, F> Hop<N, F> {
    /// The two channels in a row, with what waits in them.
    pub fn new(near: N, far: F) -> Hop<N, F>
        ensures answer { result ≡ record { near = near; far = far } }
    {
        Hop { near, far }
    }

    /// The two channels, near and far, with what waits in them.
    pub fn into_parts(self) -> (N, F)
        ensures answer { result ≡ (self.near, self.far) }
    {
        (self.near, self.far)
    }
}

impl<T: Copy, N: Channel<T>, F: Channel<T>> Channel<T> for Hop<N, F> {
    ghost waiting = { (hops N.Channel F.Channel).waiting };

    ghost puts = { (hops N.Channel F.Channel).puts };

    ghost polls = { (hops N.Channel F.Channel).polls };

    #[tactic(auto, using(crate::proofs::HopLaws::far_none))]
    fn put(&mut self, frame: &Frame<T>) -> Result<(), Full> {
        if self.holds() {
            return Err(Full);
        }
        self.near.put(frame)
    }

    fn poll(&mut self) -> Poll<T> {
        if self.far.holds() {
            return self.far.poll();
        }
        match self.near.poll() {
            Poll::Arrived(frame) => {
                self.far.put(&frame).unwrap();
                Poll::Still
            }
            answer => answer,
        }
    }

    fn holds(&self) -> bool {
        self.far.holds() || self.near.holds()
    }
}
