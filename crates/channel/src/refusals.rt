//! Why a put is turned down.
ghost use Rattle.channel.specs.Words.{full_number};
ghost use Rattle.std.proofs.Common.{rules};

use loads::Refusal;

/// The refusal of a put, number 11: a frame waits already.
#[derive(Clone, Copy, Debug, PartialEq, Eq)]
pub struct Full;

impl Refusal for Full {
    ghost number = { λ _. full_number };

    ghost nonzero = { Prim.search rules };

    fn number(&self) -> u8 {
        11
    }
}
