//! The timer question, two comparisons that timers have to meet, and the most repeats of a link.
ghost use Rattle.std.specs.Prelude.{◌≡◌, Some};
ghost use Rattle.loads.specs.Refusals.{refused_text};
ghost use Rattle.std.proofs.Common.{rules};
ghost use Rattle.link.specs.Refusals.{timer_number};
ghost use Rattle.link.specs.Timers.{timers_fit as fit};

use loads::Refusal;
use std::error::Error;
use std::fmt;

/// The most repeats that a link joins with.
pub const MOST_REPEATS: u8 = 10;

/// Why timers are turned down, by fixed numbers.
#[derive(Clone, Copy, Debug, PartialEq, Eq)]
pub enum TimerRefusal {
    /// There are more repeats than a link joins with.
    TooManyRepeats = 2,
    /// t1 is not above twice the bound: a frame and its reply may both be on the way.
    ShortReplyTimer = 24,
    /// t2 is not above repeats times t1: the sender may still repeat.
    ShortHutTimer = 25,
}

impl Refusal for TimerRefusal {
    ghost number = { timer_number };

    ghost nonzero = { Prim.search rules };

    fn number(&self) -> u8 {
        *self as u8
    }
}

// Open: whether all of the text can be written.
impl fmt::Display for TimerRefusal {
    ghost output = { λ refusal. Some (refused_text (timer_number refusal)) };

    fn fmt<W: fmt::Write>(&self, f: &mut fmt::Formatter<W>) -> fmt::Result {
        let number = self.number();
        write!(f, "refused {number}")
    }
}

impl Error for TimerRefusal {}

/// Whether timers meet two comparisons, with channels that keep a frame for at most `bound` ticks: `t1`, the sender's, is
/// above twice the bound, and `t2`, the hut's, above the time of all repeats.
pub fn timers_fit(repeats: u8, bound: u16, t1: u16, t2: u16) -> Result<(), TimerRefusal>
    ensures answer { result ≡ fit repeats bound t1 t2 }
{
    if repeats > MOST_REPEATS {
        return Err(TimerRefusal::TooManyRepeats);
    }
    if u32::from(t1) <= 2 * u32::from(bound) {
        return Err(TimerRefusal::ShortReplyTimer);
    }
    if u32::from(t2) <= u32::from(repeats) * u32::from(t1) {
        return Err(TimerRefusal::ShortHutTimer);
    }
    Ok(())
}
