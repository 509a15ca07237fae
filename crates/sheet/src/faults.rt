//! Why a sheet is turned down, by fixed numbers, and where.
ghost use Rattle.std.specs.Prelude.{◌≡◌, Some, IfOk, string_bytes};
ghost use Rattle.std.proofs.Common.{rules};
ghost use Rattle.sheet.specs.Faults.{number_of, fault_text, error_text};
ghost use Rattle.sheet.specs.declared.faults.ReadError.TheVariants.{Refused, NoMemory};

use loads::Refusal;
use std::alloc::{AllocError, AllocFailed, Global};
use std::error::Error;
use std::fmt;

/// Why a sheet is turned down.
#[derive(Clone, Copy, Debug, PartialEq, Eq)]
pub enum SheetRefusal {
    /// It has fewer octets than a trailer, or more than a sheet may have.
    WrongSize = 17,
    /// The trailer names no kind of load that a sheet may have, or more repeats than a link joins with.
    BadSetting = 18,
    /// The trailer's distances do not lead to a book at the first octet, with K's marks, L's marks and calls behind it.
    BadDistances = 19,
    /// A record of the book spells no load.
    NoLoad = 20,
    /// A mark is above 2, or there is one more in its list than a rain takes.
    BadMark = 21,
    /// A letter is of no call, octets of a request are missing, or there is one call more than a sheet may have.
    BadCall = 22,
}

impl Refusal for SheetRefusal {
    ghost number = { number_of };

    ghost nonzero = { Prim.search rules };

    fn number(&self) -> u8 {
        *self as u8
    }
}

/// What a sheet is turned down for, and at which octet, counted from 0.
#[derive(Clone, Copy, Debug, PartialEq, Eq)]
pub struct SheetFault {
    /// What for.
    pub refusal: SheetRefusal,
    /// The octet's place, counted from 0.
    pub place: usize,
}

// The text of a sheet that is turned down. Open: whether all of it can be written.
impl fmt::Display for SheetFault {
    ghost output = { λ fault. Some (fault_text fault) };

    fn fmt<W: fmt::Write>(&self, f: &mut fmt::Formatter<W>) -> fmt::Result {
        let number = self.refusal.number();
        let place = self.place;
        write!(f, "sheet {number} at {place}")
    }
}

impl Error for SheetFault {}

/// Why there is no sheet: it is turned down, or there is no memory for its parts.
#[derive(Clone, Copy, Debug, PartialEq, Eq)]
pub enum ReadError {
    /// It is turned down.
    Refused(SheetFault),
    /// Memory is wanting, which says nothing of the sheet.
    NoMemory,
}

// Open: whether all of it can be written.
impl fmt::Display for ReadError {
    ghost output = { λ error. Some (error_text error) };

    fn fmt<W: fmt::Write>(&self, f: &mut fmt::Formatter<W>) -> fmt::Result {
        match self {
            ReadError::Refused(fault) => write!(f, "{fault}"),
            ReadError::NoMemory => write!(f, "no memory"),
        }
    }
}

impl Error for ReadError {}

// This and the next two by hand, since of a derived `From` no contract says what it makes.
impl From<SheetFault> for ReadError {
    ghost from_gives = { λ fault r. r ≡ Refused fault };

    fn from(fault: SheetFault) -> ReadError {
        ReadError::Refused(fault)
    }
}

impl From<AllocError> for ReadError {
    ghost from_gives = { λ _ r. r ≡ NoMemory };

    fn from(_error: AllocError) -> ReadError {
        ReadError::NoMemory
    }
}

impl<T: Drop> From<AllocFailed<T>> for ReadError {
    ghost from_gives = { λ _ r. r ≡ NoMemory };

    fn from(_refused: AllocFailed<T>) -> ReadError {
        ReadError::NoMemory
    }
}

/// The printed line of a sheet that is turned down, without its end. Open: whether there is memory for it.
pub fn fault_line(heap: Global, fault: SheetFault) -> Result<String, AllocError>
    ensures made { IfOk result (λ text. string_bytes text ≡ fault_text fault) }
{
    fault.to_string(heap)
}
