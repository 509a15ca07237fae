//! The printed line of a frame's octets.
ghost use Rattle.std.specs.Prelude.{◌≡◌, IfOk, string_bytes, MatchResult, slice_set};
ghost use Rattle.loads.specs.declared.faults.Fault.TheVariants.{NoMemory};
ghost use Rattle.loads.specs.Frames.{frame_spelled};
ghost use Rattle.frametext.specs.Lines.{spelled_text, frame_line, changed_lines};

use crate::anyframes::AnyFrame;
use crate::hexadecimals::hexadecimal;
use loads::{Fault, Frame, Load};
use std::alloc::{AllocError, Global};

// What octets spell, or the number that turns them down.
fn spelled_text(heap: Global, octets: &[u8]) -> Result<String, AllocError>
    ensures made { IfOk result (λ text. string_bytes text ≡ spelled_text octets.now) }
{
    match AnyFrame::read(octets) {
        Ok(frame) => frame.to_string(heap),
        Err(fault) => fault.to_string(heap),
    }
}

/// A label, the octets in hexadecimal, and what they spell or the number that turns them down.
/// Open: whether there is memory for the text.
pub fn frame_line(heap: Global, label: &str, octets: &[u8]) -> Result<String, AllocError>
    ensures made { IfOk result (λ text. string_bytes text ≡ frame_line label.now octets.now) }
{
    let hexadecimals = hexadecimal(heap, octets)?;
    let text = spelled_text(heap, octets)?;
    format!(in heap; "{label} {hexadecimals}: {text}")
}

// Changes the octet at a place, where there is one: two parameters, as callers of `frame_lines` give
// them.
fn change(octets: &mut [u8], place: usize, octet: u8)
    ensures after { octets.new ≡ slice_set octets.old place octet }
{
    // not by a slice's `get_mut`, of which nothing says what the slice ends as
    if place < octets.len() {
        octets[place] = octet;
    }
}

// Two lines: octets as they are, and with the one at a place changed.
fn changed_lines(
    heap: Global,
    octets: &mut [u8],
    place: usize,
    octet: u8,
) -> Result<String, AllocError>
    ensures made { IfOk result (λ text. string_bytes text ≡ changed_lines octets.old place octet) }
{
    let wrote = frame_line(heap, "wrote", octets)?;
    change(octets, place, octet);
    let damaged = frame_line(heap, "damaged", octets)?;
    format!(in heap; "{wrote}\n{damaged}")
}

/// Two lines: a frame as it is written, and a copy of it with the octet at a place, counted from
/// 0, changed. The only error is `NoMemory`. Open: whether there is memory for the text.
pub fn frame_lines<T: Load>(
    heap: Global,
    frame: &Frame<T>,
    place: usize,
    octet: u8,
) -> Result<String, Fault>
    ensures cases { MatchResult result
        (λ text. string_bytes text ≡ changed_lines (frame_spelled T.Load frame.now) place octet)
        (λ fault. fault ≡ NoMemory) }
{
    let mut octets = frame.octets();
    // the rest of the array is no part of the frame
    let end = Frame::<T>::octet_count();
    Ok(changed_lines(heap, &mut octets[..end], place, octet)?)
}
