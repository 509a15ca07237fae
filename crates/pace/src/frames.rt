//! Frames written and read back: a block of pieces and readings in each round.
ghost use Rattle.std.specs.Prelude.{◌≡◌, ◌<◌, IfOk, All, string_bytes, vec_items, fold};
ghost use Rattle.std.specs.Fn.{iterate};
ghost use Rattle.std.specs.List.{flat_map};
ghost use Rattle.pace.specs.Frames.{frame_of, HoldsFrame, HoldsFrames, fields, fields_of, added, block, added_block, frames_text};

use loads::{Frame, LONGEST_FRAME, Load, Piece, Reading};
use std::alloc::{AllocError, Global};

// How many frames of each kind a block has. They are all written before the first is read.
const BLOCK: u32 = 1024;

// A frame, and room for its octets.
#[derive(Clone, Copy)]
struct Slot<T> {
    frame: Frame<T>,
    octets: [u8; LONGEST_FRAME],
}

impl<T: Load> Slot<T> {
    // A frame of a load, with bits that change from one number to the next, and empty room.
    fn new(number: u32, load: T) -> Slot<T>
        ensures answer { result.frame ≡ frame_of number load }
    {
        Slot {
            frame: Frame {
                first: number & 1 != 0,
                last: number & 2 != 0,
                toggle: number & 4 != 0,
                load,
            },
            octets: [0; LONGEST_FRAME],
        }
    }

    // Writes the frame.
    fn write(&mut self)
        ensures frame { self.new.frame ≡ self.old.frame }
        ensures written { HoldsFrame T.Load self.new }
    {
        self.frame.write(&mut self.octets).unwrap();
    }

    // Reads its load.
    fn load(&self) -> T
        requires { HoldsFrame T.Load self.now }
        ensures answer { result ≡ self.now.frame.load }
    {
        Frame::<T>::read(&self.octets[..Frame::<T>::octet_count()])
            .unwrap()
            .load
    }
}

// A frame of each kind.
#[derive(Clone, Copy)]
struct Pair {
    piece: Slot<Piece>,
    reading: Slot<Reading>,
}

impl Pair {
    // The frames of a number.
    fn new(number: u32) -> Pair
        requires { number < 1024 }
        ensures answer { fields result ≡ fields_of number }
    {
        let body = u64::from(number).wrapping_mul(0x9E37_79B9_7F4A_7C15);
        let row = number.wrapping_mul(3);
        let piece = Piece::new(20, number, row, (number % 65_536) as u16, body).unwrap();
        Pair {
            piece: Slot::new(number, piece),
            reading: Slot::new(number, Reading { value: number }),
        }
    }

    // Writes both.
    fn write(&mut self)
        ensures frames { fields self.new ≡ fields self.old }
        ensures written { HoldsFrames self.new }
    {
        self.piece.write();
        self.reading.write();
    }

    // Reads both, and adds what their loads have.
    fn add_to(&self, sum: u64) -> u64
        requires { HoldsFrames self.now }
        ensures answer { result ≡ fold added sum (fields self.now) }
    {
        let piece = self.piece.load();
        let reading = self.reading.load();
        sum.wrapping_add(piece.body)
            .wrapping_add(u64::from(piece.column))
            .wrapping_add(u64::from(piece.row))
            .wrapping_add(u64::from(piece.number))
            .wrapping_add(u64::from(reading.value))
    }
}

// The frames of a block. Open: whether there is memory for them.
#[tactic(auto, unfolding(crate::specs::Frames::block))]
fn pairs(heap: Global) -> Result<Vec<Pair>, AllocError>
    ensures made { IfOk result (λ pairs. flat_map fields (vec_items pairs) ≡ block) }
{
    let mut pairs = Vec::new(heap);
    for number in 0..BLOCK {
        pairs.push(Pair::new(number))?;
    }
    Ok(pairs)
}

// Writes the frames of a block.
fn write_block(pairs: &mut [Pair])
    ensures frames { flat_map fields pairs.new ≡ flat_map fields pairs.old }
    ensures written { All HoldsFrames pairs.new }
{
    for pair in pairs.iter_mut() {
        pair.write();
    }
}

// The sum of what the loads of a block have, as they are read.
fn read_block(pairs: &[Pair]) -> u64
    requires { All HoldsFrames pairs.now }
    ensures answer { result ≡ fold added 0 (flat_map fields pairs.now) }
{
    let mut sum = 0;
    for pair in pairs {
        sum = pair.add_to(sum);
    }
    sum
}

// Writes and reads a block so often, and adds up its sums.
fn sum_of_rounds(pairs: &mut [Pair], rounds: u64) -> u64
    ensures answer { result ≡ iterate (added_block (flat_map fields pairs.old)) rounds 0 }
{
    let mut sum: u64 = 0;
    for _ in 0..rounds {
        write_block(pairs);
        sum = sum.wrapping_add(read_block(pairs));
    }
    sum
}

/// Writes and reads a block of frames in each round. Open: whether there is memory for the block and the text.
#[tactic(auto, unfolding(crate::specs::Frames::frames_text))]
pub fn repeat(heap: Global, rounds: u64) -> Result<String, AllocError>
    ensures made { IfOk result (λ text. string_bytes text ≡ frames_text rounds) }
{
    let mut pairs = pairs(heap)?;
    let sum = sum_of_rounds(&mut pairs, rounds);
    let frames = rounds.wrapping_mul(2 * u64::from(BLOCK));
    format!(in heap; "frames {frames} sum {sum}")
}
