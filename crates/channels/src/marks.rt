//! The marks by which a rain treats frames: as values, or as the octets that they are read from.
ghost use Rattle.std.specs.Prelude.{◌≡◌, List};
ghost use Rattle.channels.specs.declared.marks.Mark.{Mark};
ghost use Rattle.channels.specs.Marks.{mark_read, good_marks, marks_read, marks_kept, next_mark, later_marks, marks_left, IsOfMarks};

use std::marker::Model;

/// The most marks that a rain takes.
pub const MOST_MARKS: usize = 64;

/// What becomes of a frame.
#[derive(Clone, Copy, Debug, PartialEq, Eq)]
pub enum Mark {
    /// Mark 0: the answers of the channel below are passed on.
    Pass,
    /// Mark 1: a frame that arrives is lost.
    Lose,
    /// Mark 2: one poll is answered Still without asking below, and then answers are passed on.
    Delay,
}

/// An octet is no mark: it is above 2.
#[derive(Clone, Copy, Debug, PartialEq, Eq)]
pub struct NotAMark;

impl TryFrom<u8> for Mark {
    type Error = NotAMark;

    ghost try_from_gives = { λ octet answer. answer ≡ mark_read octet };

    fn try_from(octet: u8) -> Result<Mark, NotAMark> {
        match octet {
            0 => Ok(Mark::Pass),
            1 => Ok(Mark::Lose),
            2 => Ok(Mark::Delay),
            _ => Err(NotAMark),
        }
    }
}

// Whether octets are marks: at most 64, each at most 2.
fn good_marks(octets: &[u8]) -> bool
    ensures answer { result ≡ good_marks octets.now }
{
    octets.len() <= MOST_MARKS && octets.iter().all(|octet| Mark::try_from(*octet).is_ok())
}

// Where the marks of the frames to come are: octets that are marks, or marks that somebody keeps.
#[derive(Clone, Copy)]
pub(crate) enum Source<'m> {
    Octets(&'m [u8]),
    Marks(&'m [Mark]),
}

// The marks of the frames to come.
#[derive(Drop)]
pub(crate) struct Marks<'m> {
    source: Source<'m>,
}

// Clauses see them as marks, and not as octets.
impl<'m> Model for Marks<'m> {
    ghost Value = { List Mark };

    ghost view = { λ marks. marks_left marks.source };

    ghost invariant = { λ marks. IsOfMarks marks.source };
}

impl<'m> Marks<'m> {
    // The marks of octets, if each is one and there are not too many.
    pub(crate) fn read(octets: &'m [u8]) -> Option<Marks<'m>>
        ensures answer { result ≡ marks_read octets.now }
    {
        if !good_marks(octets) {
            return None;
        }
        Some(Marks {
            source: Source::Octets(octets),
        })
    }

    // Marks that are kept, if there are not too many.
    pub(crate) fn kept(marks: &'m [Mark]) -> Option<Marks<'m>>
        ensures answer { result ≡ marks_kept marks.now }
    {
        if marks.len() > MOST_MARKS {
            return None;
        }
        Some(Marks {
            source: Source::Marks(marks),
        })
    }

    // Takes the next mark. After the last they are all Pass.
    pub(crate) fn take(&mut self) -> Mark
        ensures answer { result ≡ next_mark self.old }
        ensures after { self.new ≡ later_marks self.old }
    {
        match &mut self.source {
            Source::Octets(octets) => match octets.split_off_first() {
                Some(octet) => Mark::try_from(*octet).unwrap(),
                None => Mark::Pass,
            },
            Source::Marks(marks) => marks.split_off_first().copied().unwrap_or(Mark::Pass),
        }
    }
}
