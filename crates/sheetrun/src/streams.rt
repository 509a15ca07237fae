//! A sheet from any reader, and what it prints to any writer.
ghost use Rattle.std.specs.Prelude.{◌≡◌, OnOk, IfOk, IfSome, vec_items};
ghost use Rattle.std.specs.Io.KnownBytes.{Appends};
ghost use Rattle.sheet.specs.AnySheets.{sheet_reads};
ghost use Rattle.sheetrun.specs.Prints.{sheet_octets, sheet_prints, RunsLawfully};

use crate::prints::sheet_lines;
use sheet::MOST_OCTETS;
use std::alloc::Global;
use std::io;
use std::io::{Read, Write};

// One octet more than a sheet may have, so that a longer input is seen to be too long.
const INPUT_LIMIT: u64 = MOST_OCTETS as u64 + 1;

// The octets of an input that are run as a sheet.
fn read_octets<R: Read + Drop>(heap: Global, input: R) -> io::Result<Vec<u8>>
    ensures read { IfOk result (λ octets.
        IfSome (R.remaining input) (λ all. vec_items octets ≡ sheet_octets all)) }
{
    let mut octets = Vec::new(heap);
    input.take(INPUT_LIMIT).read_to_end(&mut octets)?;
    Ok(octets)
}

/// Reads octets, runs the sheet that they are, and writes all that it prints. It reads one octet more than a sheet may have,
/// so that a longer input is seen to be too long. Open: whether it ends without an error, and what the output holds after one.
pub fn run_sheet<R: Read + Drop, W: Write>(heap: Global, input: R, output: &mut W) -> io::Result<()>
    ensures printed { OnOk result (IfSome (R.remaining input) (λ all.
        Appends (W.contents output.old) (W.contents output.new)
        (sheet_prints (sheet_octets all)))) }
    ensures law { OnOk result (IfSome (R.remaining input) (λ all.
        RunsLawfully (sheet_reads (sheet_octets all)))) }
{
    let octets = read_octets(heap, input)?;
    let lines = sheet_lines(heap, &octets)?;
    output.write_all(lines.as_bytes())
}
