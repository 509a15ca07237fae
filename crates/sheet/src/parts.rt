//! A record of a sheet as a part of it: its place, its octets, and what they mean.
ghost use Rattle.std.specs.Prelude.{◌≡◌};
ghost use Rattle.sheet.specs.Parts.{part_state};

use channels::Mark;
use link::Call;

/// A direction of frames.
#[derive(Clone, Copy, Debug, PartialEq, Eq)]
pub enum Way {
    /// On channel K.
    ToHut,
    /// On channel L.
    Back,
}

/// A record of a sheet: its place, which is that of its first octet, counted from 0, its octets, and what they mean.
#[derive(Clone, Copy, Debug, PartialEq, Eq)]
pub enum Part<'s, T> {
    /// A record of the book: a load.
    BookRecord {
        place: usize,
        octets: &'s [u8],
        load: T,
    },
    /// A mark for frames of one way.
    Mark {
        place: usize,
        octets: &'s [u8],
        way: Way,
        mark: Mark,
    },
    /// A call.
    Call {
        place: usize,
        octets: &'s [u8],
        call: Call,
    },
}

impl<'s, T> Part<'s, T> {
    /// Where the record starts: the place of its first octet, counted from 0.
    pub fn place(&self) -> usize
        ensures answer { result ≡ (part_state self.now).place }
    {
        match self {
            Part::BookRecord { place, .. } | Part::Mark { place, .. } | Part::Call { place, .. } =>
                *place,
        }
    }

    /// The octets of the record.
    pub fn octets(&self) -> &'s [u8]
        ensures answer { result.now ≡ (part_state self.now).octets }
    {
        match self {
            Part::BookRecord { octets, .. }
            | Part::Mark { octets, .. }
            | Part::Call { octets, .. } => octets,
        }
    }
}
