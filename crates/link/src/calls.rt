//! The twelve calls, and their letters.
ghost use Rattle.std.specs.Prelude.{◌≡◌};
ghost use Rattle.link.specs.Words.{letter as letter_of};

/// A call, as a list of calls has it.
#[derive(Clone, Copy, Debug, PartialEq, Eq)]
pub enum Call {
    /// `count` loads of the book from `start` become a message.
    Request { start: u16, count: u16 },
    /// The next load of the book is put into channel K.
    Send,
    /// Channel K is polled.
    Carry,
    /// The hut is told the load that it holds.
    Tell,
    /// The hut puts a reply into channel L.
    Reply,
    /// Channel L is polled.
    Return,
    /// After a loss the sender may send the load once more, or has to confirm.
    Retry,
    /// The sender gives up the message.
    Abandon,
    /// The message ends with a word.
    Confirm,
    /// After another word than OK the ends part.
    Part,
    /// The hut tells that a message was broken off.
    Break,
    /// After a part the ends meet for the next message.
    Meet,
}

impl Call {
    /// The letter of this call in a printed line.
    pub fn letter(&self) -> char
        ensures answer { result ≡ letter_of self.now }
    {
        match self {
            Call::Request { start: _, count: _ } => 'Q',
            Call::Send => 'S',
            Call::Carry => 'C',
            Call::Tell => 'T',
            Call::Reply => 'R',
            Call::Return => 'B',
            Call::Retry => 'Y',
            Call::Abandon => 'A',
            Call::Confirm => 'F',
            Call::Part => 'P',
            Call::Break => 'N',
            Call::Meet => 'M',
        }
    }
}
