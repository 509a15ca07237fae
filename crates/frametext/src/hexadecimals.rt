//! Octets in hexadecimal, with capitals.
ghost use Rattle.std.specs.Prelude.{◌≡◌, ◌<◌, [], ◌∷◌, length, string_bytes, MatchResult};
ghost use Rattle.frametext.specs.Additions.{Adds};
ghost use Rattle.frametext.specs.Hexadecimals.{digit, hexadecimal as hexadecimal_of};

use std::alloc::{AllocError, Global};

// The digit of a value below 16.
fn digit(value: u8) -> char
    requires { value < 16 }
    ensures answer { result ≡ digit value }
{
    if value < 10 {
        char::from(b'0' + value)
    } else {
        char::from(b'A' - 10 + value)
    }
}

// Adds the two digits of an octet to a text.
fn push_octet(text: &mut String, octet: u8) -> Result<(), AllocError>
    ensures added { Adds text.old text.new (hexadecimal_of (octet ∷ [])) result }
{
    text.push(digit(octet / 16))?;
    text.push(digit(octet % 16))
}

/// Adds two digits for each octet to a text, and nothing between them. Where memory is wanting, the
/// text has a front of them, and not all. Open: whether it is wanting, where the text has no room
/// for them.
// not by the kit's crate `hex`, which does not say that no octets need no memory
pub fn push_hexadecimal(text: &mut String, octets: &[u8]) -> Result<(), AllocError>
    ensures added { Adds text.old text.new (hexadecimal_of octets.now) result }
{
    for octet in octets {
        push_octet(text, *octet)?;
    }
    Ok(())
}

/// The same as a text of its own. Open: whether there is memory for it, where there are octets.
pub fn hexadecimal(heap: Global, octets: &[u8]) -> Result<String, AllocError>
    ensures cases { MatchResult result
        (λ text. string_bytes text ≡ hexadecimal_of octets.now)
        (λ _. 0 < length octets.now) }
{
    let mut text = String::new(heap);
    push_hexadecimal(&mut text, octets)?;
    Ok(text)
}
