//! A message on a link over two rains: what is asked of it, what each call answers, and how it ends.
ghost use Rattle.std.specs.Prelude.{◌≡◌, ◌≤◌, IfOk, List, length, vec_items};
ghost use Rattle.channels.specs.Marks.{most_marks};
ghost use Rattle.link.specs.Timers.{most_repeats};
ghost use Rattle.loads.specs.Readings.{readings};
ghost use Rattle.sheetrun.specs.CallsByMarks.{marked_link, link_over, calls_by_marks};
ghost use Rattle.worked.specs.Messages.{MessageParts, message_of};

use channels::{Mark, Rain, Store, Wire};
use link::{Answer, Call, Event, Link, LinkRefusal, Word};
use loads::{Book, Reading};
use sheetrun::{RainedLink, run_by_marks};
use std::alloc::{AllocError, Global};
use std::marker::Model;

/// Calls on a link that has just joined, with their answers.
#[derive(Drop)]
pub struct MessageExample {
    /// The repeats that the link joins with.
    pub repeats: u8,
    /// The book.
    pub book: Book<Reading>,
    /// What becomes of each frame to the hut.
    pub to_hut: &'static [Mark],
    /// And of each frame back.
    pub back: &'static [Mark],
    /// Each call, with what it answered.
    pub events: Vec<Event<Reading>>,
    /// The word of the last message, and how many of its loads the hut was told.
    pub outcome: Result<(Word, u32), LinkRefusal>,
}

impl Model for MessageExample {
    ghost Value = { MessageParts };

    ghost view = { λ it. record {
      repeats = it.repeats;
      book = it.book;
      to_hut = it.to_hut.now;
      back = it.back.now;
      events = vec_items it.events;
      outcome = it.outcome;
    } };
}

// A link that has joined over two empty channels, which lose and delay frames by these marks.
fn joined_over(
    repeats: u8,
    to_hut: &'static [Mark],
    back: &'static [Mark],
) -> RainedLink<'static, Reading>
    requires repeats { repeats ≤ most_repeats }
    requires to_hut { length to_hut.now ≤ most_marks }
    requires back { length back.now ≤ most_marks }
    ensures answer { marked_link readings result ≡ link_over repeats to_hut.now back.now }
{
    let to_hut = Rain::of_marks(Wire::new(), to_hut).unwrap();
    let back = Rain::of_marks(Store::new(), back).unwrap();
    let mut link = Link::new(to_hut, back);
    link.join(repeats).unwrap();
    link
}

impl MessageExample {
    // Makes the calls on such a link, with a book of these loads.
    pub(crate) fn run(
        heap: Global,
        repeats: u8,
        loads: &[Reading],
        to_hut: &'static [Mark],
        back: &'static [Mark],
        calls: &[Call],
    ) -> Result<MessageExample, AllocError>
        requires repeats { repeats ≤ most_repeats }
        requires to_hut { length to_hut.now ≤ most_marks }
        requires back { length back.now ≤ most_marks }
        ensures answer { IfOk result (λ it.
            it ≡ message_of repeats loads.now to_hut.now back.now calls.now) }
    {
        let book = Book::new(Vec::from_slice(heap, loads)?);
        let mut link = joined_over(repeats, to_hut, back);
        // fills the log; the run writes over all of it
        let unwritten = Event {
            call: Call::Meet,
            answer: Ok(Answer::Done),
        };
        let mut events = Vec::new(heap);
        events.resize(calls.len(), unwritten)?;
        run_by_marks(&mut link, &book, calls, &mut events).unwrap();
        Ok(MessageExample {
            repeats,
            book,
            to_hut,
            back,
            events,
            outcome: link.outcome(),
        })
    }
}
