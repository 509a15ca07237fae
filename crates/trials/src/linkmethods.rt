//! A message up to its break, each call made by its own method.
use crate::linksteps::{ARRIVED, Answered, DONE, FIRST_7, NOT_DUE, NOT_OK, TWO, readings};
use channel::Channel;
use channels::{Store, Wire};
use link::{Answer, Call, Link, LinkRefusal, Word};
use loads::{Book, EmptyLoad, Load, Reading};
use std::test::Fail;

// Makes a call that gives no more than that it was accepted.
fn make_plain<T: Load, K: Channel<T>, L: Channel<EmptyLoad>>(
    link: &mut Link<T, K, L>,
    book: &Book<T>,
    call: Call,
) -> Result<(), LinkRefusal> {
    match call {
        Call::Request { start, count } => link.request(book, start, count),
        Call::Send => link.send(book),
        Call::Reply => link.reply(),
        Call::Retry => link.retry(),
        Call::Abandon => link.abandon(),
        Call::Part => link.part(),
        Call::Break => link.tell_break(),
        _ => link.meet(),
    }
}

// Makes a call by its method.
fn make<T: Load, K: Channel<T>, L: Channel<EmptyLoad>>(
    link: &mut Link<T, K, L>,
    book: &Book<T>,
    call: Call,
) -> Answered<T> {
    match call {
        Call::Carry => Ok(Answer::Polled(link.carry()?)),
        Call::Return => Ok(Answer::Polled(link.return_reply()?)),
        Call::Tell => {
            let (mark, load) = link.tell()?;
            Ok(Answer::Told(mark, load))
        }
        Call::Confirm => Ok(Answer::Confirmed(link.confirm()?)),
        _ => {
            make_plain(link, book, call)?;
            Ok(Answer::Done)
        }
    }
}

const STEPS: [(Call, Answered<Reading>); 12] = [
    (TWO, DONE),
    (Call::Send, DONE),
    (Call::Carry, ARRIVED),
    (Call::Tell, FIRST_7),
    (Call::Reply, DONE),
    (Call::Return, ARRIVED),
    (Call::Abandon, DONE),
    (Call::Retry, NOT_DUE),
    (Call::Confirm, NOT_OK),
    (Call::Part, DONE),
    (Call::Break, DONE),
    (Call::Meet, DONE),
];

#[test]
fn calls_by_their_methods_up_to_a_break(rt: HostRuntime) -> Result<(), Fail> {
    let book = readings(rt.alloc(), 2)?;
    let mut link = Link::new(Wire::new(), Store::new());
    link.join(0)?;
    for (i, (call, answer)) in STEPS.iter().enumerate() {
        assert_eq!(rt; make(&mut link, &book, *call), *answer, "step {i}");
    }
    assert_eq!(rt; link.outcome()?, (Word::NotOk, 1));
    Ok(())
}
