//! The words that a link gives: of a message, of a load, and of a channel.
ghost use Rattle.std.specs.Prelude.{◌≡◌};
ghost use Rattle.link.specs.Words.{word_text, position_text, heard_text};

/// How a message ended.
#[derive(Clone, Copy, Debug, PartialEq, Eq)]
pub enum Word {
    /// All of it was told.
    Ok,
    /// Something was not.
    NotOk,
    /// At most the last load was not.
    DontKnow,
}

/// A load's position in its message.
#[derive(Clone, Copy, Debug, PartialEq, Eq)]
pub enum Position {
    /// It is the last.
    Ok,
    /// It is the first, and not the last.
    First,
    /// It is neither.
    Incomplete,
}

/// What became of the oldest frame in a channel.
#[derive(Clone, Copy, Debug, PartialEq, Eq)]
pub enum Heard {
    /// It goes on waiting.
    Still,
    /// It has come through.
    Arrived,
    /// It is gone.
    Lost,
}

impl Word {
    /// The printed word.
    pub fn word(&self) -> &'static str
        ensures answer { result.now ≡ word_text self.now }
    {
        match self {
            Word::Ok => "OK",
            Word::NotOk => "NOT_OK",
            Word::DontKnow => "DONT_KNOW",
        }
    }
}

impl Position {
    /// The printed word.
    pub fn word(&self) -> &'static str
        ensures answer { result.now ≡ position_text self.now }
    {
        match self {
            Position::Ok => "OK",
            Position::First => "FIRST",
            Position::Incomplete => "INCOMPLETE",
        }
    }
}

impl Heard {
    /// The printed word.
    pub fn word(&self) -> &'static str
        ensures answer { result.now ≡ heard_text self.now }
    {
        match self {
            Heard::Still => "STILL",
            Heard::Arrived => "ARRIVED",
            Heard::Lost => "LOST",
        }
    }
}
