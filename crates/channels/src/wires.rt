//! The wire: a channel that keeps one frame as octets and loses none.
ghost use Rattle.std.specs.Prelude.{◌≡◌, []};
ghost use Rattle.channels.specs.Wires.{front_frame, wire_waits, wires};

use channel::{Channel, Full, Poll};
use loads::{Frame, LONGEST_FRAME, Load};
use std::marker::PhantomData;

/// A channel with room for the octets of one frame, which it neither delays nor loses.
/// The octets begin at the front. It has no `Model`, whose view would read them by the load kind:
/// then `T: Load` would be asked wherever the type is named.
#[derive(Drop)]
pub struct Wire<T> {
    octets: Option<[u8; LONGEST_FRAME]>,
    kind: PhantomData<T>,
}

impl<T: Load> Wire<T> {
    /// A wire in which nothing waits.
    pub fn new() -> Wire<T>
        ensures answer { wire_waits T.Load result ≡ [] }
    {
        Wire {
            octets: None,
            kind: PhantomData,
        }
    }

    // The frame that the octets spell, if they spell one.
    fn frame(&self) -> Option<Frame<T>>
        ensures answer { result ≡ front_frame T.Load self.now.octets }
    {
        let octets = self.octets.as_ref()?;
        Frame::<T>::read(&octets[..Frame::<T>::octet_count()]).ok()
    }
}

impl<T: Load> Channel<T> for Wire<T> {
    ghost waiting = { (wires T.Load).waiting };

    ghost polls = { (wires T.Load).polls };

    fn put(&mut self, frame: &Frame<T>) -> Result<(), Full> {
        if self.holds() {
            return Err(Full);
        }
        self.octets = Some(frame.octets());
        Ok(())
    }

    fn poll(&mut self) -> Poll<T> {
        let frame = self.frame();
        self.octets = None;
        frame.map_or(Poll::Empty, Poll::Arrived)
    }

    fn holds(&self) -> bool {
        self.frame().is_some()
    }
}
