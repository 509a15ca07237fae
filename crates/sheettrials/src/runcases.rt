//! Runs of sheets as events, and runs by marks into logs of other lengths.
use crate::plans::{NOTHING, PIECES, Plan, pieces_of, readings_of};
use channels::{Rain, Store, Wire};
use link::{Answer, Call, Event, Heard, Link, LinkRefusal, Position};
use loads::{Book, Load, Piece, Reading};
use sheet::Sheet;
use sheetrun::{RainedLink, run_by_marks, sheet_events};
use std::alloc::{AllocError, Global};
use std::fmt::Debug;
use std::process::Abort;
use std::test::Fail;

// A request of the book's first load.
const REQUEST: Call = Call::Request { start: 0, count: 1 };

// An event that no run here writes.
const UNUSED: Event<Reading> = Event {
    call: Call::Meet,
    answer: Ok(Answer::Done),
};

// A call that is accepted.
fn answered<T>(call: Call, answer: Answer<T>) -> Event<T> {
    Event {
        call,
        answer: Ok(answer),
    }
}

// The sheet must have these events.
fn assert_events<T: Load + Debug + PartialEq>(
    rt: &impl Abort,
    heap: Global,
    sheet: &Sheet<'_, T>,
    expected: &[Event<T>],
) -> Result<(), AllocError> {
    let events = sheet_events(heap, sheet)?;
    assert_eq!(rt; events.as_slice(), expected);
    Ok(())
}

const READING_EVENTS: [Event<Reading>; 6] = [
    Event {
        call: REQUEST,
        answer: Ok(Answer::Done),
    },
    Event {
        call: Call::Send,
        answer: Ok(Answer::Done),
    },
    Event {
        call: Call::Carry,
        answer: Ok(Answer::Polled(Heard::Still)),
    },
    Event {
        call: Call::Carry,
        answer: Ok(Answer::Polled(Heard::Arrived)),
    },
    Event {
        call: Call::Tell,
        answer: Ok(Answer::Told(Position::Ok, Reading { value: 7 })),
    },
    Event {
        call: Call::Carry,
        answer: Err(LinkRefusal::NothingWaits),
    },
];

#[test]
fn a_sheet_of_readings_has_events(rt: HostRuntime) -> Result<(), Fail> {
    let octets = Plan {
        book: &[0, 0, 0, 7],
        to_hut: &[2],
        calls: b"Q\0\0\0\x01SCCTC",
        ..NOTHING
    }
    .octets(rt.alloc())?;
    let sheet = readings_of(rt.alloc(), &octets).ok_or("no readings")?;
    assert_events(&rt, rt.alloc(), &sheet, &READING_EVENTS)?;
    Ok(())
}

#[test]
fn a_sheet_of_pieces_has_events(rt: HostRuntime) -> Result<(), Fail> {
    let octets = Plan {
        book: &[0, 0, 0, 0, 0, 0, 0, 0, 0, 1, 2, 0, 0, 0, 0, 0, 0, 0, 9],
        back: &[1],
        calls: b"Q\0\0\0\x01SCTRB",
        kind: PIECES,
        ..NOTHING
    }
    .octets(rt.alloc())?;
    let sheet = pieces_of(rt.alloc(), &octets).ok_or("no pieces")?;
    let piece = Piece::new(0, 0, 0, 258, 9)?;
    let expected = [
        answered(REQUEST, Answer::Done),
        answered(Call::Send, Answer::Done),
        answered(Call::Carry, Answer::Polled(Heard::Arrived)),
        answered(Call::Tell, Answer::Told(Position::Ok, piece)),
        answered(Call::Reply, Answer::Done),
        answered(Call::Return, Answer::Polled(Heard::Lost)),
    ];
    assert_events(&rt, rt.alloc(), &sheet, &expected)?;
    Ok(())
}

// What the runs write.
const REQUESTED: Event<Reading> = Event {
    call: REQUEST,
    answer: Ok(Answer::Done),
};

const SENT: Event<Reading> = Event {
    call: Call::Send,
    answer: Ok(Answer::Done),
};

const LOST: Event<Reading> = Event {
    call: Call::Carry,
    answer: Ok(Answer::Polled(Heard::Lost)),
};

const STILL: Event<Reading> = Event {
    call: Call::Carry,
    answer: Ok(Answer::Polled(Heard::Still)),
};

const ARRIVED: Event<Reading> = Event {
    call: Call::Carry,
    answer: Ok(Answer::Polled(Heard::Arrived)),
};

// Calls, how much of the log they get, what the run answers, and the log of four behind it.
type Step = (
    &'static [Call],
    usize,
    Result<(), LinkRefusal>,
    [Event<Reading>; 4],
);

// A run into the front of a log; none where the log has less room.
fn run_in<'m>(
    link: &mut RainedLink<'m, Reading>,
    book: &Book<Reading>,
    calls: &[Call],
    log: &mut [Event<Reading>],
    room: usize,
) -> Option<Result<(), LinkRefusal>> {
    match log.get_mut(..room) {
        Some(front) => Some(run_by_marks(link, book, calls, front)),
        None => None,
    }
}

// A link over a wire under a rain must answer these runs, which write to one log.
fn assert_runs(
    rt: &impl Abort,
    heap: Global,
    to_hut: Rain<'_, Wire<Reading>>,
    steps: &[Step],
) -> Result<(), Fail> {
    let book = Book::<Reading>::read(heap, 1, &[0, 0, 0, 7])?;
    let back = Rain::new(Store::new(), &[]).unwrap();
    let mut link = Link::new(to_hut, back);
    link.join(0)?;
    let mut log = [UNUSED; 4];
    for (calls, room, answer, after) in steps {
        assert_eq!(rt;
            run_in(&mut link, &book, calls, &mut log, *room),
            Some(*answer)
        );
        assert_eq!(rt; log, *after);
    }
    Ok(())
}

const SENDING: [Call; 3] = [REQUEST, Call::Send, Call::Carry];

// Were a call made by the short run, or a mark taken, the second would answer otherwise.
const SHORT: [Step; 2] = [
    (&SENDING, 2, Err(LinkRefusal::ShortLog), [UNUSED; 4]),
    (&SENDING, 3, Ok(()), [REQUESTED, SENT, LOST, UNUSED]),
];

#[test]
fn a_short_log_changes_nothing(rt: HostRuntime) -> Result<(), Fail> {
    let to_hut = Rain::new(Wire::new(), &[1]).unwrap();
    assert_runs(&rt, rt.alloc(), to_hut, &SHORT)
}

// The last run begins at the front of the log, and where the link was left.
const LONG: [Step; 3] = [
    (&[], 4, Ok(()), [UNUSED; 4]),
    (&SENDING, 4, Ok(()), [REQUESTED, SENT, STILL, UNUSED]),
    (&[Call::Carry], 4, Ok(()), [ARRIVED, SENT, STILL, UNUSED]),
];

#[test]
fn a_long_log_keeps_its_later_entries(rt: HostRuntime) -> Result<(), Fail> {
    let to_hut = Rain::new(Wire::new(), &[2]).unwrap();
    assert_runs(&rt, rt.alloc(), to_hut, &LONG)
}
