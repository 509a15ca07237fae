//! Calls of a link that are turned down.
use crate::crossings::{follow, opening};
use crate::linksteps::Step::{Join, Make, Outcome};
use crate::linksteps::{
    ARRIVED, Answered, Case, DONE, NOT_DUE, THREE, book_of, follow_cases, follow_link, follow_new,
    readings,
};
use channel::{Channel, Used};
use channels::{Store, Wire};
use link::{Answer, Call, Hut, Link, LinkRefusal, Sender};
use loads::{EmptyLoad, Reading};
use std::test::Fail;

const NOT_JOINED: Answered<Reading> = Err(LinkRefusal::NotJoined);

const NOTHING_WAITS: Answered<Reading> = Err(LinkRefusal::NothingWaits);

const MESSAGE_OPEN: Answered<Reading> = Err(LinkRefusal::MessageOpen);

const NO_LOAD: Answered<Reading> = Err(LinkRefusal::NoLoad);

// A request of no load.
const NONE: Call = Call::Request { start: 0, count: 0 };

const CASES: [Case; 4] = [
    Case {
        name: "a link that is not joined turns every call down",
        to_hut: &[],
        back: &[],
        loads: 3,
        steps: &[
            Make(Call::Send, NOT_JOINED),
            Make(Call::Tell, NOT_JOINED),
            Make(Call::Reply, NOT_JOINED),
            Make(Call::Retry, NOT_JOINED),
            Make(Call::Abandon, NOT_JOINED),
            Make(Call::Confirm, NOT_JOINED),
            Make(Call::Part, NOT_JOINED),
            Make(Call::Break, NOT_JOINED),
            Make(Call::Meet, NOT_JOINED),
            Make(THREE, NOT_JOINED),
            Make(NONE, NOT_JOINED),
            Make(Call::Carry, NOT_JOINED),
            Make(Call::Return, NOT_JOINED),
            Outcome(Err(LinkRefusal::NotJoined)),
            Join(10, Ok(())),
            Outcome(Err(LinkRefusal::NoneConfirmed)),
        ],
    },
    Case {
        name: "a link joins once",
        to_hut: &[],
        back: &[],
        loads: 3,
        steps: &[
            Join(11, Err(LinkRefusal::TooManyRepeats)),
            Join(10, Ok(())),
            Join(10, Err(LinkRefusal::AlreadyJoined)),
            Join(11, Err(LinkRefusal::AlreadyJoined)),
        ],
    },
    Case {
        name: "a request while a message is open is turned down",
        to_hut: &[],
        back: &[],
        loads: 3,
        steps: &[
            Join(0, Ok(())),
            Make(THREE, DONE),
            Make(THREE, MESSAGE_OPEN),
            Make(Call::Request { start: 9, count: 0 }, MESSAGE_OPEN),
            Outcome(Err(LinkRefusal::StillOpen)),
        ],
    },
    Case {
        name: "calls that are not due after a join are turned down",
        to_hut: &[],
        back: &[],
        loads: 3,
        steps: &[
            Join(0, Ok(())),
            Make(Call::Send, NOT_DUE),
            Make(Call::Tell, NOT_DUE),
            Make(Call::Reply, NOT_DUE),
            Make(Call::Retry, NOT_DUE),
            Make(Call::Abandon, NOT_DUE),
            Make(Call::Confirm, NOT_DUE),
            Make(Call::Part, NOT_DUE),
            Make(Call::Break, NOT_DUE),
            Make(Call::Meet, NOT_DUE),
            Make(Call::Carry, NOTHING_WAITS),
            Make(Call::Return, NOTHING_WAITS),
            Make(THREE, DONE),
            Make(Call::Send, DONE),
            Make(Call::Carry, ARRIVED),
            Make(Call::Carry, NOTHING_WAITS),
        ],
    },
];

#[test]
fn calls_are_turned_down_by_what_went_before(rt: HostRuntime) -> Result<(), Fail> {
    follow_cases(&rt, rt.alloc(), &CASES)
}

#[test]
fn a_link_does_not_join_while_a_frame_waits(rt: HostRuntime) -> Result<(), Fail> {
    let book = readings(rt.alloc(), 0)?;
    let mut to_hut = Store::new();
    follow(
        &rt,
        &mut to_hut,
        &[(Used::Put(opening(Reading { value: 7 }), Ok(())), true)],
    );
    let mut link = Link::new(to_hut, Store::new());
    let holds = Join(0, Err(LinkRefusal::ChannelHolds));
    let too_many = Join(11, Err(LinkRefusal::TooManyRepeats));
    follow_link(&rt, &mut link, &book, "to the hut", &[holds, too_many]);
    let (to_hut, mut back) = link.into_parts();
    assert!(rt; to_hut.holds());
    follow(
        &rt,
        &mut back,
        &[(Used::Put(opening(EmptyLoad), Ok(())), true)],
    );
    let mut link = Link::new(Store::new(), back);
    follow_link(&rt, &mut link, &book, "back", &[holds]);
    Ok(())
}

const BAD_COUNT: Answered<EmptyLoad> = Err(LinkRefusal::BadCount);

const BEYOND_BOOK: Answered<EmptyLoad> = Err(LinkRefusal::BeyondBook);

const TAKEN: Answered<EmptyLoad> = Ok(Answer::Done);

// How many loads the book has, a start, a count, and what a request of them answers.
const REQUESTS: [(usize, u16, u16, Answered<EmptyLoad>); 15] = [
    (4_096, 0, 0, BAD_COUNT),
    (4_096, 0, 4_097, BAD_COUNT),
    (4_096, 65_535, 65_535, BAD_COUNT),
    (4_096, 1, 4_096, BEYOND_BOOK),
    (4_096, 4_096, 1, BEYOND_BOOK),
    (4_096, 65_535, 4_096, BEYOND_BOOK),
    (4_096, 4_095, 1, TAKEN),
    (4_096, 0, 4_096, TAKEN),
    // a book may have more loads than a message
    (4_097, 0, 4_097, BAD_COUNT),
    (4_097, 4_097, 1, BEYOND_BOOK),
    (4_097, 2, 4_096, BEYOND_BOOK),
    (4_097, 1, 4_096, TAKEN),
    (4_097, 4_096, 1, TAKEN),
    // and more than there are starts
    (65_536, 65_535, 2, BEYOND_BOOK),
    (65_537, 65_535, 2, TAKEN),
];

#[test]
fn requests_are_held_to_the_book(rt: HostRuntime) -> Result<(), Fail> {
    for (loads, start, count, answer) in REQUESTS {
        let book = book_of::<EmptyLoad>(rt.alloc(), loads, &[])?;
        let steps = [
            Join(0, Ok(())),
            Make(Call::Request { start, count }, answer),
        ];
        follow_new(
            &rt,
            (Store::new(), Store::new()),
            &book,
            "a request",
            &steps,
        );
    }
    Ok(())
}

#[test]
fn a_send_needs_the_load_in_the_book_that_is_given(rt: HostRuntime) -> Result<(), Fail> {
    let book = readings(rt.alloc(), 3)?;
    let shorter = readings(rt.alloc(), 2)?;
    let mut link = Link::new(Wire::new(), Store::new());
    let third = Call::Request { start: 2, count: 1 };
    follow_link(
        &rt,
        &mut link,
        &book,
        "asks",
        &[Join(0, Ok(())), Make(third, DONE)],
    );
    follow_link(
        &rt,
        &mut link,
        &shorter,
        "no third",
        &[Make(Call::Send, NO_LOAD)],
    );
    follow_link(&rt, &mut link, &book, "third", &[Make(Call::Send, DONE)]);
    follow_link(
        &rt,
        &mut link,
        &shorter,
        "sent",
        &[Make(Call::Send, NOT_DUE)],
    );
    Ok(())
}

#[test]
fn a_send_is_turned_down_by_a_full_channel(rt: HostRuntime) -> Result<(), Fail> {
    let book = readings(rt.alloc(), 3)?;
    let mut to_hut = Store::new();
    follow(
        &rt,
        &mut to_hut,
        &[(Used::Put(opening(Reading { value: 7 }), Ok(())), true)],
    );
    let mut sender = Sender::new();
    assert_eq!(rt; sender.request(book.len(), 0, 3), Ok(()));
    assert_eq!(rt;
        sender.send(&book, &mut to_hut),
        Err(LinkRefusal::ChannelFull)
    );
    assert_eq!(rt; sender.send(&book, &mut Store::new()), Ok(()));
    Ok(())
}

#[test]
fn a_reply_is_turned_down_by_a_full_channel(rt: HostRuntime) {
    let mut back = Store::new();
    follow(
        &rt,
        &mut back,
        &[(Used::Put(opening(EmptyLoad), Ok(())), true)],
    );
    let mut hut = Hut::new();
    hut.carry(&opening(Reading { value: 7 }));
    assert!(rt; hut.tell().is_ok());
    assert_eq!(rt; hut.reply(&mut back), Err(LinkRefusal::ChannelFull));
    assert_eq!(rt; hut.reply(&mut Store::new()), Ok(()));
}
