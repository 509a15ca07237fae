//! Why a call of the link is turned down, by fixed numbers.
ghost use Rattle.std.specs.Prelude.{◌≡◌, Some};
ghost use Rattle.loads.specs.Refusals.{refused_text};
ghost use Rattle.std.proofs.Common.{rules};
ghost use Rattle.link.specs.declared.refusals.LinkRefusal.TheVariants.{ChannelFull};
ghost use Rattle.link.specs.Refusals.{number_of};

use channel::Full;
use loads::Refusal;
use std::error::Error;
use std::fmt;

/// Why a call is turned down. Where two apply, the smaller is given.
#[derive(Clone, Copy, Debug, PartialEq, Eq)]
pub enum LinkRefusal {
    /// A link joins once.
    AlreadyJoined = 1,
    /// Above 10.
    TooManyRepeats = 2,
    /// A frame waits in a channel that a link joins over.
    ChannelHolds = 3,
    /// Every call but join asks for a joined link.
    NotJoined = 4,
    /// A request while a message is open.
    MessageOpen = 5,
    /// 0, or above 4,096.
    BadCount = 6,
    /// The book ends before the message.
    BeyondBook = 7,
    /// The end's place and state do not allow the call.
    NotDue = 8,
    /// The book that was given has no load at the place that is next.
    NoLoad = 9,
    /// The channel that is polled is empty.
    NothingWaits = 10,
    /// A put was turned down, since a frame waits.
    ChannelFull = 11,
    /// The outcome is asked for while a message is open.
    StillOpen = 12,
    /// The outcome is asked for before the first confirm.
    NoneConfirmed = 13,
    /// The log has fewer entries than there are calls.
    ShortLog = 23,
}

impl Refusal for LinkRefusal {
    ghost number = { number_of };

    ghost nonzero = { Prim.search rules };

    fn number(&self) -> u8 {
        *self as u8
    }
}

// Open: whether all of the text can be written.
impl fmt::Display for LinkRefusal {
    ghost output = { λ refusal. Some (refused_text (number_of refusal)) };

    fn fmt<W: fmt::Write>(&self, f: &mut fmt::Formatter<W>) -> fmt::Result {
        let number = self.number();
        write!(f, "refused {number}")
    }
}

impl Error for LinkRefusal {}

impl From<Full> for LinkRefusal {
    ghost from_gives = { λ _ r. r ≡ ChannelFull };

    fn from(_full: Full) -> LinkRefusal {
        LinkRefusal::ChannelFull
    }
}
