//! What is written reads back as itself: for every load kind, a load and a frame. Two functions,
//! since the members of a trait above `Load` for both would be a record without a name.
ghost use Rattle.std.specs.Prelude.{◌≡◌, ◌+◌};
ghost use Rattle.loads.specs.Octets.{write_leaves, round_trip};
ghost use Rattle.loads.specs.Frames.{frame_spelled};

use crate::faults::Fault;
use crate::frames::Frame;
use crate::kinds::Load;

/// Writes a load into a buffer and reads it from there: it is the same load. Refused by
/// `WrongLength` where the buffer is shorter than the load's octets.
pub fn load_comes_back<T: Load>(load: &T, buffer: &mut [u8]) -> Result<T, Fault>
    ensures answer { result ≡ round_trip T.SIZE load.now buffer.old }
    ensures after { buffer.new ≡ write_leaves (T.spelled load.now) buffer.old }
{
    load.write(buffer)?;
    // from the front alone, since the buffer may be longer
    T::read(&buffer[..T::SIZE])
}

/// Writes a frame into a buffer and reads it from there: it is the same frame. Refused by
/// `WrongLength` where the buffer is shorter than the frame's octets.
pub fn frame_comes_back<T: Load>(frame: &Frame<T>, buffer: &mut [u8]) -> Result<Frame<T>, Fault>
    ensures answer { result ≡ round_trip (T.SIZE + 1) frame.now buffer.old }
    ensures after { buffer.new ≡ write_leaves (frame_spelled T.Load frame.now) buffer.old }
{
    frame.write(buffer)?;
    // from the front alone, since the buffer may be longer
    Frame::<T>::read(&buffer[..Frame::<T>::octet_count()])
}
