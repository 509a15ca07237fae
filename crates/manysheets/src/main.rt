//! Runs the call sheets on standard input, one on a line with its name, and prints what each of them prints, behind its name.

#![tactic(auto)]

ghost use Rattle.std.specs.Prelude.{◌≡◌, ◌<◌, All, map, flat_map, IfOk, OnOk, IfSome, vec_items, string_bytes};
ghost use Rattle.std.specs.Str.Lines.{lines};
ghost use Rattle.std.specs.Io.KnownBytes.{Appends};
ghost use Rattle.manysheets.specs.Prints.{value_of as value, octets_of as spelled, IsDigit, AreDigits, NamesSheet, named_prints, text_prints, NamesSheets};

use sheetrun::sheet_lines;
use std::alloc::{AllocError, Global};
use std::io::{Read, Write};

// The value of a digit in hexadecimal.
fn value_of(digit: u8) -> anyhow::Result<u8>
    ensures below { IfOk result (λ value. value < 16) }
    ensures value { IfOk result (λ found. found ≡ value digit) }
    ensures digit { OnOk result (IsDigit digit) }
{
    match digit {
        b'0'..=b'9' => Ok(digit - b'0'),
        b'A'..=b'F' => Ok(digit - b'A' + 10),
        _ => Err(anyhow::anyhow!("{digit} is no digit")),
    }
}

// The octets that digits spell, two for each.
fn octets_of(heap: Global, digits: &[u8]) -> anyhow::Result<Vec<u8>>
    ensures made { IfOk result (λ octets. vec_items octets ≡ spelled digits.now) }
    ensures digits { OnOk result (AreDigits digits.now) }
{
    let mut octets = Vec::new(heap);
    let mut left = digits;
    while let [high, low, rest @ ..] = left {
        octets.push(value_of(*high)? * 16 + value_of(*low)?)?;
        left = rest;
    }
    Ok(octets)
}

// What the sheet on a line prints, behind its name. Open: whether there is memory for it.
fn named_lines(heap: Global, line: &str) -> anyhow::Result<String>
    ensures made { IfOk result (λ text. string_bytes text ≡ named_prints line.now) }
    ensures named { OnOk result (NamesSheet line.now) }
{
    let Some((name, digits)) = line.split_once(' ') else {
        return Err(anyhow::anyhow!("no sheet"));
    };
    let octets = octets_of(heap, digits.as_bytes())?;
    let lines = sheet_lines(heap, &octets)?;
    Ok(format!(in heap; "{name}\n{lines}")?)
}

// The lines of a text. Open: whether there is memory for them.
fn lines_of(heap: Global, text: &str) -> Result<Vec<&str>, AllocError>
    ensures made { IfOk result
        (λ found. map (λ line. line.now) (vec_items found) ≡ lines text.now) }
{
    text.lines().collect(heap)
}

// Writes what the sheets on lines print, each behind its name. Open: what the output holds after an error.
fn write_lines<W: Write>(heap: Global, found: &[&str], output: &mut W) -> anyhow::Result<()>
    ensures printed { OnOk result (Appends (W.contents output.old) (W.contents output.new)
        (flat_map named_prints (map (λ line. line.now) found.now))) }
    ensures named { OnOk result (All NamesSheet (map (λ line. line.now) found.now)) }
{
    for line in found {
        output.write_all(named_lines(heap, line)?.as_bytes())?;
    }
    Ok(())
}

// Runs the sheets that a reader gives, one on a line with its name, and writes what each of them prints, behind its name.
// Open: whether it ends without an error, and what the output holds after one.
fn run_sheets<R: Read + Drop, W: Write>(
    heap: Global,
    mut input: R,
    output: &mut W,
) -> anyhow::Result<()>
    ensures printed { OnOk result (IfSome (R.remaining input) (λ all.
        Appends (W.contents output.old) (W.contents output.new) (text_prints all))) }
    ensures named { OnOk result (IfSome (R.remaining input) (λ all. NamesSheets all)) }
{
    let mut text = String::new(heap);
    input.read_to_string(&mut text)?;
    write_lines(heap, &lines_of(heap, &text)?, output)
}

fn main(rt: HostRuntime) -> anyhow::Result<()> {
    run_sheets(rt.alloc(), rt.stdin(), &mut rt.stdout())
}
