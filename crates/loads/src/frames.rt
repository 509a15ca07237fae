//! The frame: three bits and a load, and its octets.
ghost use Rattle.std.specs.Prelude.{◌≡◌, ◌+◌, ◌<◌, take, replicate, Ok};
ghost use Rattle.loads.specs.Octets.{write_answer, write_leaves};
ghost use Rattle.loads.specs.Frames.{bit_value, bit_on, kind_of, header as header_of, frame_spelled, frame_reads};

use crate::faults::Fault;
use crate::kinds::Load;

/// The most octets that a frame of any kind has: its header and 31 of its load. Every frame's
/// array is as long, since `T::SIZE + 1` cannot be a length.
pub const LONGEST_FRAME: usize = 32;

/// What a channel carries: three bits and a load.
#[derive(Clone, Copy, Debug, PartialEq, Eq)]
pub struct Frame<T> {
    /// The load is the first of its message.
    pub first: bool,
    /// The load is the last of its message.
    pub last: bool,
    /// Tells a repeat of a load from the next load.
    pub toggle: bool,
    /// The load itself.
    pub load: T,
}

// What a bit adds to its octet.
fn bit_value(place: u32, on: bool) -> u8
    requires { place < 8 }
    ensures answer { result ≡ bit_value place on }
{
    u8::from(on) << place
}

// Whether a bit of an octet is on.
fn bit_on(place: u32, octet: u8) -> bool
    requires { place < 8 }
    ensures answer { result ≡ bit_on place octet }
{
    (octet >> place) & 1 == 1
}

/// The number of the kind that a frame's first octet names, 0 to 31.
pub fn kind_of(header: u8) -> u8
    ensures answer { result ≡ kind_of header }
{
    header & 0x1f
}

impl<T: Load> Frame<T> {
    /// How many octets a frame of the kind has: its header and those of its load. A method, since
    /// of a constant over `T::SIZE` nothing is known.
    pub fn octet_count() -> usize
        ensures answer { result ≡ T.SIZE + 1 }
    {
        T::SIZE + 1
    }

    // The first octet: the three bits and the kind.
    fn header(&self) -> u8
        ensures answer { result ≡ header_of T.Load self.now }
    {
        bit_value(7, self.first) + bit_value(6, self.last) + bit_value(5, self.toggle) + T::KIND
    }

    /// Spells the frame at the front of a buffer. Refused by `WrongLength` where the buffer is
    /// shorter than the frame's octets, and then the buffer stays as it was.
    pub fn write(&self, buffer: &mut [u8]) -> Result<(), Fault>
        ensures answer { result ≡ write_answer (frame_spelled T.Load self.now) buffer.old }
        ensures after { buffer.new ≡ write_leaves (frame_spelled T.Load self.now) buffer.old }
    {
        let Some((header, load)) = buffer.split_first_mut() else {
            return Err(Fault::WrongLength);
        };
        self.load.write(load)?;
        *header = self.header();
        Ok(())
    }

    /// The frame's octets, and octets 0 behind them up to 32.
    pub fn octets(&self) -> [u8; LONGEST_FRAME]
        ensures answer { result ≡ write_leaves (frame_spelled T.Load self.now) (replicate 32 0) }
        ensures front { take (T.SIZE + 1) result ≡ frame_spelled T.Load self.now }
        ensures back { frame_reads T.Load (take (T.SIZE + 1) result) ≡ Ok self.now }
    {
        let mut octets = [0; LONGEST_FRAME];
        self.write(&mut octets).unwrap();
        octets
    }

    /// The frame that octets spell. Refused by `WrongLength` where they are not one more than the
    /// kind's, by `WrongKind` where the header names another kind, and else as the load is.
    pub fn read(octets: &[u8]) -> Result<Frame<T>, Fault>
        ensures answer { result ≡ frame_reads T.Load octets.now }
    {
        let [header, load @ ..] = octets else {
            return Err(Fault::WrongLength);
        };
        if load.len() != T::SIZE {
            return Err(Fault::WrongLength);
        }
        if kind_of(*header) != T::KIND {
            return Err(Fault::WrongKind);
        }
        Ok(Frame {
            first: bit_on(7, *header),
            last: bit_on(6, *header),
            toggle: bit_on(5, *header),
            load: T::read(load)?,
        })
    }
}
