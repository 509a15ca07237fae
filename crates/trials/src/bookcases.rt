//! Books at their limits, and a message from a book that is longer than any message.
use crate::linksteps::Step::{Join, Make, Outcome};
use crate::linksteps::{ARRIVED, DONE, OK, ONLY_7, Step, book_of, follow_new};
use channels::{Store, Wire};
use link::{Call, LinkRefusal, Word};
use loads::{Book, EmptyLoad, Load, Piece, Reading};
use std::alloc::Global;
use std::fmt::Debug;
use std::process::Abort;
use std::test::Fail;

const THREE_READINGS: [u8; 12] = [0, 0, 0, 7, 0, 0, 0, 8, 0, 0, 0, 9];

// A count, the octets, and how many loads the book then has.
const LENGTHS: [(usize, &[u8], usize); 10] = [
    (0, &THREE_READINGS, 0),
    (1, &THREE_READINGS, 1),
    (2, &THREE_READINGS, 2),
    (3, &THREE_READINGS, 3),
    (4, &THREE_READINGS, 3),
    (18_446_744_073_709_551_615, &THREE_READINGS, 3),
    (3, &[0, 0, 0, 7, 0, 0, 0, 8, 0, 0, 0], 2),
    (3, &[0, 0, 0, 7, 0, 0, 0, 8, 0], 2),
    (3, &[0, 0, 0, 7, 0, 0, 0, 8], 2),
    (3, &[], 0),
];

// A book has so many loads, and these at their places.
fn has_loads<T: Load + Debug + PartialEq>(
    rt: &impl Abort,
    book: &Book<T>,
    length: usize,
    loads: &[(usize, Option<T>)],
) {
    assert_eq!(rt; book.len(), length);
    for (place, load) in loads {
        assert_eq!(rt; book.load(*place), *load, "at {place} of {length}");
    }
}

#[test]
fn a_book_ends_with_its_count_or_its_octets(rt: HostRuntime) -> Result<(), Fail> {
    for (count, octets, length) in LENGTHS {
        let book = book_of::<Reading>(rt.alloc(), count, octets)?;
        assert_eq!(rt; book.len(), length, "of {count} in {octets:?}");
    }
    Ok(())
}

const READINGS: [(usize, Option<Reading>); 4] = [
    (0, Some(Reading { value: 7 })),
    (1, Some(Reading { value: 8 })),
    (2, Some(Reading { value: 9 })),
    (3, None),
];

#[test]
fn a_book_has_its_loads_in_order(rt: HostRuntime) -> Result<(), Fail> {
    let book = book_of(rt.alloc(), 3, &THREE_READINGS)?;
    has_loads(&rt, &book, 3, &READINGS);
    Ok(())
}

#[test]
fn a_book_is_made_of_loads(rt: HostRuntime) -> Result<(), Fail> {
    let mut loads = Vec::new(rt.alloc());
    assert_eq!(rt; Book::new(Vec::<Reading>::new(rt.alloc())).len(), 0);
    for value in 7..10 {
        loads.push(Reading { value })?;
    }
    has_loads(&rt, &Book::new(loads), 3, &READINGS);
    Ok(())
}

const EIGHT: Reading = Reading { value: 8 };

const SEVEN: Reading = Reading { value: 7 };

// The book of so many readings 8, and then one 7.
fn long_book(heap: Global, last: usize) -> Result<Book<Reading>, Fail> {
    let mut octets = [0, 0, 0, 8].repeat(heap, last)?;
    octets.extend_from_slice(&[0, 0, 0, 7])?;
    book_of(heap, last + 1, &octets)
}

// The place of the last load: one more than a message has, and one more than a message may start at.
const LAST_PLACES: [usize; 2] = [4_096, 65_536];

#[test]
fn a_book_may_be_longer_than_a_message(rt: HostRuntime) -> Result<(), Fail> {
    for last in LAST_PLACES {
        let loads = [
            (0, Some(EIGHT)),
            (last - 1, Some(EIGHT)),
            (last, Some(SEVEN)),
            (last + 1, None),
        ];
        has_loads(&rt, &long_book(rt.alloc(), last)?, last + 1, &loads);
        let mut made = Vec::new(rt.alloc());
        made.resize(last, EIGHT)?;
        made.push(SEVEN)?;
        has_loads(&rt, &Book::new(made), last + 1, &loads);
    }
    Ok(())
}

// A message may not have all loads of the book, and has the last of them.
const FROM_THE_END: [Step<Reading>; 10] = [
    Join(0, Ok(())),
    Make(
        Call::Request {
            start: 0,
            count: 4_097,
        },
        Err(LinkRefusal::BadCount),
    ),
    Make(
        Call::Request {
            start: 4_096,
            count: 1,
        },
        DONE,
    ),
    Make(Call::Send, DONE),
    Make(Call::Carry, ARRIVED),
    Make(Call::Tell, ONLY_7),
    Make(Call::Reply, DONE),
    Make(Call::Return, ARRIVED),
    Make(Call::Confirm, OK),
    Outcome(Ok((Word::Ok, 1))),
];

#[test]
fn a_message_is_taken_from_the_end_of_a_long_book(rt: HostRuntime) -> Result<(), Fail> {
    let book = long_book(rt.alloc(), 4_096)?;
    let channels = (Wire::new(), Store::new());
    follow_new(&rt, channels, &book, "a long book", &FROM_THE_END);
    Ok(())
}

// Three pieces, the one in the middle at a zoom that no map has.
#[test]
fn a_book_ends_before_a_bad_record(rt: HostRuntime) -> Result<(), Fail> {
    let mut octets = [0; 57];
    octets[0] = 20;
    octets[38] = 20;
    assert_eq!(rt; book_of::<Piece>(rt.alloc(), 3, &octets)?.len(), 3);
    octets[19] = 21;
    let book = book_of(rt.alloc(), 3, &octets)?;
    let loads = [(0, Some(Piece::new(20, 0, 0, 0, 0)?)), (1, None)];
    has_loads(&rt, &book, 1, &loads);
    Ok(())
}

#[test]
fn a_book_of_empty_loads_has_its_count(rt: HostRuntime) -> Result<(), Fail> {
    let book = book_of(rt.alloc(), 3, &[])?;
    has_loads(&rt, &book, 3, &[(2, Some(EmptyLoad)), (3, None)]);
    assert_eq!(rt; book_of::<EmptyLoad>(rt.alloc(), 0, &[1, 2])?.len(), 0);
    Ok(())
}
