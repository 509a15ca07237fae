//! What the cases on links share: what is done with a link and what it must answer, and how a table of such cases is followed.
use crate::crossings::below;
use channel::Channel;
use channels::{Store, Wire};
use link::{Answer, Call, Event, Heard, Link, LinkRefusal, Position, Word};
use loads::{Book, EmptyLoad, Load, Reading};
use std::alloc::Global;
use std::fmt::Debug;
use std::process::Abort;
use std::test::Fail;

/// What a call answers.
pub type Answered<T> = Result<Answer<T>, LinkRefusal>;

pub const DONE: Answered<Reading> = Ok(Answer::Done);

pub const STILL: Answered<Reading> = Ok(Answer::Polled(Heard::Still));

pub const ARRIVED: Answered<Reading> = Ok(Answer::Polled(Heard::Arrived));

pub const LOST: Answered<Reading> = Ok(Answer::Polled(Heard::Lost));

pub const OK: Answered<Reading> = Ok(Answer::Confirmed(Word::Ok));

pub const NOT_OK: Answered<Reading> = Ok(Answer::Confirmed(Word::NotOk));

pub const DONT_KNOW: Answered<Reading> = Ok(Answer::Confirmed(Word::DontKnow));

pub const NOT_DUE: Answered<Reading> = Err(LinkRefusal::NotDue);

/// The hut is told the first of the readings: as the only one of its message, or as the first of several.
pub const ONLY_7: Answered<Reading> = Ok(Answer::Told(Position::Ok, Reading { value: 7 }));

pub const FIRST_7: Answered<Reading> = Ok(Answer::Told(Position::First, Reading { value: 7 }));

/// The hut is told the second, as the last of its message.
pub const LAST_8: Answered<Reading> = Ok(Answer::Told(Position::Ok, Reading { value: 8 }));

/// A request of the first reading, of the first two, or of all three.
pub const ONE: Call = Call::Request { start: 0, count: 1 };

pub const TWO: Call = Call::Request { start: 0, count: 2 };

pub const THREE: Call = Call::Request { start: 0, count: 3 };

/// An event that no run writes.
pub const UNUSED: Event<Reading> = Event {
    call: Call::Meet,
    answer: DONT_KNOW,
};

/// What is done with a link, with what it must answer.
#[derive(Clone, Copy, Debug, PartialEq)]
pub enum Step<T> {
    Join(u8, Result<(), LinkRefusal>),
    Make(Call, Answered<T>),
    Outcome(Result<(Word, u32), LinkRefusal>),
}

/// A link under marks for each way, over a book of so many of three readings, and what is done with it in order.
#[derive(Clone, Copy)]
pub struct Case {
    pub name: &'static str,
    pub to_hut: &'static [u8],
    pub back: &'static [u8],
    pub loads: usize,
    pub steps: &'static [Step<Reading>],
}

/// The book of octets.
pub fn book_of<T: Load>(heap: Global, count: usize, octets: &[u8]) -> Result<Book<T>, Fail> {
    let book = Book::<T>::read(heap, count, octets)?;
    Ok(book)
}

const THREE_READINGS: [u8; 12] = [0, 0, 0, 7, 0, 0, 0, 8, 0, 0, 0, 9];

/// A book of so many of the readings 7, 8 and 9.
pub fn readings(heap: Global, count: usize) -> Result<Book<Reading>, Fail> {
    book_of(heap, count, &THREE_READINGS)
}

// Does a step, and gives it with what the link answers.
fn take<T: Load, K: Channel<T>, L: Channel<EmptyLoad>>(
    link: &mut Link<T, K, L>,
    book: &Book<T>,
    step: &Step<T>,
) -> Step<T> {
    match *step {
        Step::Join(repeats, _) => Step::Join(repeats, link.join(repeats)),
        Step::Make(call, _) => {
            let event = link.step(book, call);
            Step::Make(event.call, event.answer)
        }
        Step::Outcome(_) => Step::Outcome(link.outcome()),
    }
}

/// Does each step in order. The link must answer as it says.
pub fn follow_link<T: Load + Debug + PartialEq, K: Channel<T>, L: Channel<EmptyLoad>>(
    rt: &impl Abort,
    link: &mut Link<T, K, L>,
    book: &Book<T>,
    name: &str,
    steps: &[Step<T>],
) {
    for (i, step) in steps.iter().enumerate() {
        assert_eq!(rt; take(link, book, step), *step, "{name}, step {i}");
    }
}

/// Does each step on a link over these channels, not joined.
pub fn follow_new<T: Load + Debug + PartialEq, K: Channel<T> + Drop, L: Channel<EmptyLoad> + Drop>(
    rt: &impl Abort,
    (to_hut, back): (K, L),
    book: &Book<T>,
    name: &str,
    steps: &[Step<T>],
) {
    let mut link = Link::new(to_hut, back);
    follow_link(rt, &mut link, book, name, steps);
}

/// Follows each case on a wire and a store, each below a rain, and also without rains where there are no marks.
pub fn follow_cases(rt: &impl Abort, heap: Global, cases: &[Case]) -> Result<(), Fail> {
    for Case {
        name,
        to_hut,
        back,
        loads,
        steps,
    } in cases {
        let book = readings(heap, *loads)?;
        let rains = (
            below(rt, Wire::new(), to_hut),
            below(rt, Store::new(), back),
        );
        follow_new(rt, rains, &book, name, steps);
        if to_hut.is_empty() && back.is_empty() {
            follow_new(rt, (Wire::new(), Store::new()), &book, name, steps);
            follow_new(rt, (Store::new(), Store::new()), &book, name, steps);
        }
    }
    Ok(())
}
