//! A frame of whichever kind its first octet names, and its text.
ghost use Rattle.std.specs.Prelude.{◌≡◌, Some};
ghost use Rattle.frametext.specs.AnyFrames.{any_reads, on_off, bits_text, frame_text};

use loads::{EmptyLoad, Fault, Frame, LONGEST_FRAME, Load, Piece, Reading, kind_of};
use std::fmt;

/// A frame, by the kind of its load.
#[derive(Clone, Copy)]
pub enum AnyFrame {
    /// A frame of the empty load.
    Empty(Frame<EmptyLoad>),
    /// A frame of a reading.
    Reading(Frame<Reading>),
    /// A frame of a piece.
    Piece(Frame<Piece>),
}

impl AnyFrame {
    /// The frame that octets spell, of the kind that the first of them names. Refused by
    /// `WrongLength` where there is none or there are more than any frame has, by `WrongKind` where
    /// no load has that kind, and else as by the reader of a frame of the kind.
    pub fn read(octets: &[u8]) -> Result<AnyFrame, Fault>
        ensures answer { result ≡ any_reads octets.now }
    {
        let [header, ..] = octets else {
            return Err(Fault::WrongLength);
        };
        if octets.len() > LONGEST_FRAME {
            return Err(Fault::WrongLength);
        }
        match kind_of(*header) {
            EmptyLoad::KIND => Frame::read(octets).map(AnyFrame::Empty),
            Reading::KIND => Frame::read(octets).map(AnyFrame::Reading),
            Piece::KIND => Frame::read(octets).map(AnyFrame::Piece),
            _ => Err(Fault::WrongKind),
        }
    }
}

// A bit as a word; the `Display` of `bool` has others.
fn on_off(bit: bool) -> &'static str
    ensures answer { result.now ≡ on_off bit }
{
    if bit { "on" } else { "off" }
}

// The three bits of a frame, as text. Open: whether all of it can be written.
#[derive(Clone, Copy)]
struct Bits<'a, T>(&'a Frame<T>);

impl<'a, T> fmt::Display for Bits<'a, T> {
    ghost output = { λ bits. Some (bits_text bits.0.now) };

    fn fmt<W: fmt::Write>(&self, f: &mut fmt::Formatter<W>) -> fmt::Result {
        let first = on_off(self.0.first);
        let last = on_off(self.0.last);
        let toggle = on_off(self.0.toggle);
        write!(f, "first {first}, last {last}, toggle {toggle}")
    }
}

// The bits and the load of a frame. Open: whether all of it can be written.
impl fmt::Display for AnyFrame {
    ghost output = { λ frame. Some (frame_text frame) };

    fn fmt<W: fmt::Write>(&self, f: &mut fmt::Formatter<W>) -> fmt::Result {
        match self {
            AnyFrame::Empty(frame) => write!(f, "{}, empty load", Bits(frame)),
            AnyFrame::Reading(frame) => {
                let Reading { value } = frame.load;
                write!(f, "{}, reading {value}", Bits(frame))
            }
            AnyFrame::Piece(frame) => {
                let Piece {
                    zoom,
                    column,
                    row,
                    number,
                    body,
                } = frame.load;
                write!(
                    f,
                    "{}, piece zoom {zoom} column {column} row {row} number {number} body {body}",
                    Bits(frame)
                )
            }
        }
    }
}
