//! All that a sheet prints: a line for each call, or one that says why it is turned down.
ghost use Rattle.std.specs.Prelude.{◌≡◌, ◌<◌, length, IfOk, IfErr, string_bytes};
ghost use Rattle.sheet.specs.AnySheets.{sheet_reads};
ghost use Rattle.sheet.specs.Faults.{fault_text};
ghost use Rattle.frametext.specs.Lines.{line};
ghost use Rattle.linktext.specs.Lines.{event_lines as lines_of};
ghost use Rattle.sheetrun.specs.Prints.{events_of, sheet_prints, NeedsMemory, IsLawfulRun, RunsLawfully};

use crate::runs::sheet_events;
use linktext::event_lines;
use loads::Load;
use sheet::{AnySheet, ReadError, Sheet, SheetFault, fault_line};
use std::alloc::{AllocError, Global};

// What the run of a sheet prints. Open: whether there is memory for it, where it prints anything.
fn run_lines<'s, T: Load>(heap: Global, sheet: &Sheet<'s, T>) -> Result<String, AllocError>
    ensures made { IfOk result (λ text. string_bytes text ≡ lines_of T.Load (events_of sheet.now)) }
    ensures memory { IfErr result (λ _. 0 < length (lines_of T.Load (events_of sheet.now))) }
    ensures law { IfOk result (λ _. IsLawfulRun sheet.now) }
{
    event_lines(heap, &sheet_events(heap, sheet)?)
}

// What a sheet that is turned down prints. Open: whether there is memory for it.
fn refused_line(heap: Global, fault: SheetFault) -> Result<String, AllocError>
    ensures made { IfOk result (λ text. string_bytes text ≡ line (fault_text fault)) }
{
    let mut line = fault_line(heap, fault)?;
    line.push('\n')?;
    Ok(line)
}

/// All that the octets of a sheet print. Open: whether there is memory for it, where they print anything, and for the records
/// of a sheet that prints nothing.
pub fn sheet_lines(heap: Global, octets: &[u8]) -> Result<String, AllocError>
    ensures made { IfOk result (λ text. string_bytes text ≡ sheet_prints octets.now) }
    ensures memory { IfErr result (λ _. NeedsMemory octets.now) }
    ensures law { IfOk result (λ _. RunsLawfully (sheet_reads octets.now)) }
{
    match AnySheet::read(heap, octets) {
        Ok(AnySheet::Readings(sheet)) => run_lines(heap, &sheet),
        Ok(AnySheet::Pieces(sheet)) => run_lines(heap, &sheet),
        Err(ReadError::Refused(fault)) => refused_line(heap, fault),
        Err(ReadError::NoMemory) => Err(AllocError),
    }
}
