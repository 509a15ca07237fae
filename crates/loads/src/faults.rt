//! Why octets or a buffer are turned down, by fixed numbers.
ghost use Rattle.std.specs.Prelude.{◌≡◌, Some};
ghost use Rattle.loads.specs.Faults.{number_of};
ghost use Rattle.loads.specs.Refusals.{refused_text};
ghost use Rattle.loads.specs.declared.faults.Fault.TheVariants.{NoMemory};
ghost use Rattle.std.proofs.Common.{rules};

use crate::refusals::Refusal;
use std::alloc::{AllocError, AllocFailed};
use std::error::Error;
use std::fmt;

/// A refusal of a reader or a writer, or want of memory. Each has a fixed number.
#[derive(Clone, Copy, Debug, PartialEq, Eq)]
pub enum Fault {
    /// The octets are not as many as the kind has, or the buffer is too short for them.
    WrongLength = 14,
    /// The frame's kind is not the kind that is read.
    WrongKind = 15,
    /// The fields are no piece of a map tile.
    OutsideRanges = 16,
    /// What was to be made found no memory.
    NoMemory = 255,
}

impl Refusal for Fault {
    ghost number = { number_of };

    ghost nonzero = { Prim.search rules };

    fn number(&self) -> u8 {
        *self as u8
    }
}

// By hand, since of a derived text no contract says what it is. Open: whether all of it can be
// written.
impl fmt::Display for Fault {
    ghost output = { λ fault. Some (refused_text (number_of fault)) };

    fn fmt<W: fmt::Write>(&self, f: &mut fmt::Formatter<W>) -> fmt::Result {
        let number = self.number();
        write!(f, "refused {number}")
    }
}

impl Error for Fault {}

// This and the next by hand, since of a derived `From` no contract says which refusal it makes.
impl From<AllocError> for Fault {
    ghost from_gives = { λ _ r. r ≡ NoMemory };

    fn from(_error: AllocError) -> Fault {
        Fault::NoMemory
    }
}

impl<T: Drop> From<AllocFailed<T>> for Fault {
    ghost from_gives = { λ _ r. r ≡ NoMemory };

    fn from(_refused: AllocFailed<T>) -> Fault {
        AllocError.into()
    }
}
