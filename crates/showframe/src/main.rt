//! Writes frames and shows what their octets read back as and how a damaged copy is turned down,
//! and then does the same with the octets of standard input. Each worked frame has a function,
//! since its lines stand written out in specs/.

#![tactic(auto)]

ghost use Rattle.std.specs.Prelude.{◌≡◌, ◌++◌, OnOk, IfOk, IfSome, string_bytes, vec_items, MatchResult};
ghost use Rattle.std.specs.Io.KnownBytes.{Appends};
ghost use Rattle.loads.specs.declared.faults.Fault.TheVariants.{NoMemory};
ghost use Rattle.showframe.specs.Prints.{piece_lines, reading_lines, reply_lines, worked_lines, shown_octets, input_line};

use frametext::{frame_line, frame_lines};
use loads::{EmptyLoad, Fault, Frame, LONGEST_FRAME, Piece, Reading};
use std::alloc::Global;
use std::io;
use std::io::{Read, Write};

// One octet more than the longest frame, so that a longer input is seen to be too long.
const INPUT_LIMIT: u64 = LONGEST_FRAME as u64 + 1;

// The first piece of a message, and a copy with a zoom that no map has.
fn piece_lines(heap: Global) -> Result<String, Fault>
    ensures cases { MatchResult result
        (λ text. string_bytes text ≡ piece_lines)
        (λ fault. fault ≡ NoMemory) }
{
    let load = Piece::new(20, 1_048_575, 349_525, 3, 0x0123_4567_89AB_CDEF).unwrap();
    let frame = Frame {
        first: true,
        last: false,
        toggle: false,
        load,
    };
    frame_lines(heap, &frame, 1, 21)
}

// The first reading of a message, and a copy of a kind that no load has.
fn reading_lines(heap: Global) -> Result<String, Fault>
    ensures cases { MatchResult result
        (λ text. string_bytes text ≡ reading_lines)
        (λ fault. fault ≡ NoMemory) }
{
    let load = Reading { value: 7 };
    let frame = Frame {
        first: true,
        last: false,
        toggle: false,
        load,
    };
    frame_lines(heap, &frame, 0, 0x9F)
}

// The reply to the last load of a message, and a copy that has become a reading without its octets.
fn reply_lines(heap: Global) -> Result<String, Fault>
    ensures cases { MatchResult result
        (λ text. string_bytes text ≡ reply_lines)
        (λ fault. fault ≡ NoMemory) }
{
    let load = EmptyLoad;
    let frame = Frame {
        first: false,
        last: true,
        toggle: true,
        load,
    };
    frame_lines(heap, &frame, 0, 0x61)
}

// Writes the lines of the worked frames. Open: what the output holds after an error.
fn write_worked<W: Write>(heap: Global, output: &mut W) -> anyhow::Result<()>
    ensures printed { OnOk result
        (Appends (W.contents output.old) (W.contents output.new) worked_lines) }
{
    output.writeln(piece_lines(heap)?)?;
    output.writeln(reading_lines(heap)?)?;
    output.writeln(reply_lines(heap)?)?;
    Ok(())
}

// The octets of an input that are shown.
fn read_octets<R: Read + Drop>(heap: Global, input: R) -> io::Result<Vec<u8>>
    ensures read { IfOk result (λ octets.
        IfSome (R.remaining input) (λ all. vec_items octets ≡ shown_octets all)) }
{
    let mut octets = Vec::new(heap);
    input.take(INPUT_LIMIT).read_to_end(&mut octets)?;
    Ok(octets)
}

// Writes the lines of the worked frames, and then the line of what it reads. Open: whether it ends
// without an error, and what the output holds after one.
fn show_frames<R: Read + Drop, W: Write>(
    heap: Global,
    input: R,
    output: &mut W,
) -> anyhow::Result<()>
    ensures printed { OnOk result (IfSome (R.remaining input) (λ all.
        Appends (W.contents output.old) (W.contents output.new) (worked_lines ++ input_line all))) }
{
    write_worked(heap, output)?;
    let octets = read_octets(heap, input)?;
    output.writeln(frame_line(heap, "input", &octets)?)?;
    Ok(())
}

fn main(rt: HostRuntime) -> anyhow::Result<()> {
    show_frames(rt.alloc(), rt.stdin(), &mut rt.stdout())
}
