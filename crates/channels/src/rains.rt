//! The rain: a layer over any channel that loses and delays frames by given marks.
ghost use Rattle.std.specs.Prelude.{◌≡◌};
ghost use Rattle.std.proofs.Common.{rules};
ghost use Rattle.channels.specs.Marks.{bad_marks_number};
ghost use Rattle.channels.specs.Rains.{RainState, rain_of, rain_of_marks, rain_over, lossy, rains};

use crate::marks::{Mark, Marks};
use channel::{Channel, Full, Poll};
use loads::{Frame, Refusal};
use std::marker::Model;

/// A channel under marks, one for each frame that it accepts.
#[derive(Drop)]
pub struct Rain<'m, C> {
    below: C,
    // that of the frame which waits
    mark: Mark,
    ahead: Marks<'m>,
}

// Clauses see a rain as its channel, the mark of the frame that waits, and the marks to come.
impl<'m, C> Model for Rain<'m, C> {
    ghost Value = { RainState C };

    ghost view = { λ rain. record { below = rain.below; mark = rain.mark; ahead = rain.ahead } };
}

/// A mark is above 2, or there is a 65th. The channel that was to be below comes back.
#[derive(Drop)]
pub struct BadMarks<C> {
    /// The channel that was to be below.
    pub below: C,
}

impl<C> Refusal for BadMarks<C> {
    ghost number = { λ _. bad_marks_number };

    ghost nonzero = { Prim.search rules };

    fn number(&self) -> u8 {
        21
    }
}

impl<'m, C> Rain<'m, C> {
    /// A rain over a channel, with the marks that octets are: up to 64, each at most 2. Otherwise it is refused.
    pub fn new(below: C, marks: &'m [u8]) -> Result<Rain<'m, C>, BadMarks<C>>
        ensures answer { result ≡ rain_of below marks.now }
    {
        Rain::over(below, Marks::read(marks))
    }

    /// A rain over a channel, with up to 64 marks. With more it is refused.
    pub fn of_marks(below: C, marks: &'m [Mark]) -> Result<Rain<'m, C>, BadMarks<C>>
        ensures answer { result ≡ rain_of_marks below marks.now }
    {
        Rain::over(below, Marks::kept(marks))
    }

    // A rain whose first accepted frame takes the first of the marks, if there are any that it takes.
    fn over(below: C, ahead: Option<Marks<'m>>) -> Result<Rain<'m, C>, BadMarks<C>>
        ensures answer { result ≡ rain_over below ahead.entry }
    {
        let Some(ahead) = ahead else {
            return Err(BadMarks { below });
        };
        Ok(Rain {
            below,
            mark: Mark::Pass,
            ahead,
        })
    }

    /// The channel below, with what waits in it.
    pub fn into_below(self) -> C
        ensures answer { result ≡ self.entry.below }
    {
        self.below
    }
}

// An answer under the mark Lose: what arrives is lost.
fn lossy<T: Copy>(answer: Poll<T>) -> Poll<T>
    ensures answer { result ≡ lossy answer }
{
    match answer {
        Poll::Arrived(_) => Poll::Lost,
        other => other,
    }
}

impl<'m, T: Copy, C: Channel<T>> Channel<T> for Rain<'m, C> {
    ghost waiting = { (rains C.Channel).waiting };

    ghost puts = { (rains C.Channel).puts };

    ghost polls = { (rains C.Channel).polls };

    fn put(&mut self, frame: &Frame<T>) -> Result<(), Full> {
        self.below.put(frame)?;
        self.mark = self.ahead.take();
        Ok(())
    }

    fn poll(&mut self) -> Poll<T> {
        match self.mark {
            Mark::Pass => self.below.poll(),
            Mark::Lose => lossy(self.below.poll()),
            Mark::Delay if self.holds() => {
                self.mark = Mark::Pass;
                Poll::Still
            }
            Mark::Delay => Poll::Empty,
        }
    }

    fn holds(&self) -> bool {
        self.below.holds()
    }
}
