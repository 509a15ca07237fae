//! A sheet of whichever kind of load its trailer names.
ghost use Rattle.std.specs.Prelude.{◌≡◌, Ok, MatchResult, IfOk, IfErr};
ghost use Rattle.std.specs.Result.{IsOk};
ghost use Rattle.sheet.specs.AnySheets.{sheet_reads, HasOctetsBefore, IsSheetOf};
ghost use Rattle.sheet.specs.Conditions.{HasNoFault, IsReason};
ghost use Rattle.sheet.specs.declared.faults.ReadError.TheVariants.{NoMemory};
ghost use Rattle.sheet.specs.Faults.{Fails};
ghost use Rattle.sheet.specs.Layouts.{layout_reads};

use crate::faults::ReadError;
use crate::layouts::{Layout, LoadKind};
use crate::sheets::Sheet;
use loads::{Piece, Reading};
use std::alloc::Global;

/// A sheet, by the kind of its loads.
#[derive(Drop)]
pub enum AnySheet<'s> {
    /// Of readings.
    Readings(Sheet<'s, Reading>),
    /// Of pieces.
    Pieces(Sheet<'s, Piece>),
}

impl<'s> AnySheet<'s> {
    /// The sheet that octets spell, or the first of what turns them down, by number and then by
    /// place. Open: whether there is memory for it, where they are a sheet and octets stand before
    /// the trailer.
    pub fn read(heap: Global, octets: &'s [u8]) -> Result<AnySheet<'s>, ReadError>
        ensures cases { MatchResult result
            (λ sheet. sheet_reads octets.now ≡ Ok sheet)
            (λ error. Fails (sheet_reads octets.now) error) }
        ensures memory { IfErr result
            (λ error. error ≡ NoMemory → HasOctetsBefore (layout_reads octets.now)) }
        ensures good { IfErr result (λ error. error ≡ NoMemory → IsOk (sheet_reads octets.now)) }
        ensures spelled { IfOk result (λ sheet. IsSheetOf sheet octets.now) }
        ensures first { MatchResult result
            (λ _. HasNoFault octets.now)
            (λ error. IsReason octets.now error) }
    {
        let layout = Layout::read(octets)?;
        match layout.kind {
            LoadKind::Reading => Ok(AnySheet::Readings(Sheet::read(heap, &layout)?)),
            LoadKind::Piece => Ok(AnySheet::Pieces(Sheet::read(heap, &layout)?)),
        }
    }
}
