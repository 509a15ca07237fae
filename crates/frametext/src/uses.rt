//! The printed line of a put or a poll: by functions, since these types are of a crate that has no
//! text.
ghost use Rattle.std.specs.Prelude.{◌≡◌, IfOk, string_bytes};
ghost use Rattle.frametext.specs.Uses.{octets_text, poll_text, use_text};

use crate::hexadecimals::hexadecimal;
use channel::{Poll, Used};
use loads::{Frame, Load, answer_number};
use std::alloc::{AllocError, Global};

// The octets of a frame, in hexadecimal.
fn octets_text<T: Load>(heap: Global, frame: &Frame<T>) -> Result<String, AllocError>
    ensures made { IfOk result (λ text. string_bytes text ≡ octets_text T.Load frame.now) }
{
    let octets = frame.octets();
    // the rest of the array is no part of the frame
    hexadecimal(heap, &octets[..Frame::<T>::octet_count()])
}

// The answer of a poll, with the frame that arrived.
fn poll_text<T: Load>(heap: Global, answer: &Poll<T>) -> Result<String, AllocError>
    ensures made { IfOk result (λ text. string_bytes text ≡ poll_text T.Load answer.now) }
{
    let word = answer.word();
    match answer {
        Poll::Arrived(frame) => {
            let octets = octets_text(heap, frame)?;
            format!(in heap; "{word} {octets}")
        }
        _ => word.to_string(heap),
    }
}

/// A put with its frame and the number of its answer, or a poll with its answer. Open: whether
/// there is memory for the text.
pub fn use_line<T: Load>(heap: Global, used: &Used<T>) -> Result<String, AllocError>
    ensures made { IfOk result (λ text. string_bytes text ≡ use_text T.Load used.now) }
{
    match used {
        Used::Put(frame, answer) => {
            let octets = octets_text(heap, frame)?;
            let number = answer_number(answer);
            format!(in heap; "put {octets}: {number}")
        }
        Used::Poll(answer) => {
            let text = poll_text(heap, answer)?;
            format!(in heap; "poll: {text}")
        }
    }
}
