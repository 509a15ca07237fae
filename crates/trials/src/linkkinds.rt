//! A message of three loads over a link that loses a frame and a reply, at every load kind; and of one load over piles.
use crate::crossings::below;
use crate::linksteps::Step::{Join, Make, Outcome};
use crate::linksteps::{
    ARRIVED, Answered, DONE, LOST, NOT_DUE, OK, ONE, ONLY_7, STILL, Step, THREE, book_of,
    follow_new, readings,
};
use channels::{Hop, Store, Wire};
use link::{Answer, Call, Heard, LinkRefusal, Position, Word};
use loads::{Book, EmptyLoad, Load, Piece, Reading};
use std::fmt::Debug;
use std::process::Abort;
use std::test::Fail;

// Two pieces of one tile, and one of another.
const THREE_PIECES: [u8; 57] = [
    20, 0, 15, 255, 255, 0, 5, 85, 85, 0, 0, 1, 2, 3, 4, 5, 6, 7, 8, 20, 0, 15, 255, 255, 0, 5, 85,
    85, 0, 1, 1, 2, 3, 4, 5, 6, 7, 8, 0, 0, 0, 0, 0, 0, 0, 0, 0, 0, 0, 1, 2, 3, 4, 5, 6, 7, 8,
];

// The first load is lost once, and the reply to the second.
fn three_told<T: Copy>([first, second, third]: [T; 3]) -> [Step<T>; 28] {
    let done: Answered<T> = Ok(Answer::Done);
    let arrived: Answered<T> = Ok(Answer::Polled(Heard::Arrived));
    let lost: Answered<T> = Ok(Answer::Polled(Heard::Lost));
    [
        Join(2, Ok(())),
        Make(THREE, done),
        Make(Call::Send, done),
        Make(Call::Carry, lost),
        Make(Call::Retry, done),
        Make(Call::Send, done),
        Make(Call::Carry, arrived),
        Make(Call::Tell, Ok(Answer::Told(Position::First, first))),
        Make(Call::Reply, done),
        Make(Call::Return, arrived),
        Make(Call::Send, done),
        Make(Call::Carry, arrived),
        Make(Call::Tell, Ok(Answer::Told(Position::Incomplete, second))),
        Make(Call::Reply, done),
        Make(Call::Return, lost),
        Make(Call::Retry, done),
        Make(Call::Send, done),
        Make(Call::Carry, arrived),
        Make(Call::Tell, Err(LinkRefusal::NotDue)),
        Make(Call::Reply, done),
        Make(Call::Return, arrived),
        Make(Call::Send, done),
        Make(Call::Carry, arrived),
        Make(Call::Tell, Ok(Answer::Told(Position::Ok, third))),
        Make(Call::Reply, done),
        Make(Call::Return, arrived),
        Make(Call::Confirm, Ok(Answer::Confirmed(Word::Ok))),
        Outcome(Ok((Word::Ok, 3))),
    ]
}

// Does the steps over a wire and a store, each below a rain.
fn send_three<T: Load + Debug + PartialEq>(rt: &impl Abort, book: &Book<T>, steps: &[Step<T>]) {
    let to_hut = below(rt, Wire::new(), &[1]);
    let back = below(rt, Store::new(), &[0, 1]);
    follow_new(rt, (to_hut, back), book, "three loads", steps);
}

#[test]
fn three_readings_are_told(rt: HostRuntime) -> Result<(), Fail> {
    let octets = [0, 0, 0, 7, 0, 0, 0, 7, 255, 255, 255, 255];
    let book = book_of::<Reading>(rt.alloc(), 3, &octets)?;
    let seven = Reading { value: 7 };
    let highest = Reading {
        value: 4_294_967_295,
    };
    send_three(&rt, &book, &three_told([seven, seven, highest]));
    Ok(())
}

#[test]
fn three_pieces_are_told(rt: HostRuntime) -> Result<(), Fail> {
    let book = book_of::<Piece>(rt.alloc(), 3, &THREE_PIECES)?;
    let body = 0x0102_0304_0506_0708;
    let first = Piece::new(20, 1_048_575, 349_525, 0, body)?;
    let second = Piece::new(20, 1_048_575, 349_525, 1, body)?;
    let third = Piece::new(0, 0, 0, 0, body)?;
    send_three(&rt, &book, &three_told([first, second, third]));
    Ok(())
}

#[test]
fn three_empty_loads_are_told(rt: HostRuntime) -> Result<(), Fail> {
    let book = book_of::<EmptyLoad>(rt.alloc(), 3, &[])?;
    send_three(&rt, &book, &three_told([EmptyLoad; 3]));
    Ok(())
}

// A frame in a hop is STILL at the first poll, and at one more below mark 2.
const OVER_HOPS: [Step<Reading>; 20] = [
    Join(1, Ok(())),
    Make(ONE, DONE),
    Make(Call::Send, DONE),
    Make(Call::Carry, STILL),
    Make(Call::Carry, STILL),
    Make(Call::Carry, ARRIVED),
    Make(Call::Tell, ONLY_7),
    Make(Call::Reply, DONE),
    Make(Call::Return, STILL),
    Make(Call::Return, LOST),
    Make(Call::Retry, DONE),
    Make(Call::Send, DONE),
    Make(Call::Carry, STILL),
    Make(Call::Carry, ARRIVED),
    Make(Call::Tell, NOT_DUE),
    Make(Call::Reply, DONE),
    Make(Call::Return, STILL),
    Make(Call::Return, ARRIVED),
    Make(Call::Confirm, OK),
    Outcome(Ok((Word::Ok, 1))),
];

#[test]
fn a_load_crosses_piles_that_delay_and_lose(rt: HostRuntime) -> Result<(), Fail> {
    let book = readings(rt.alloc(), 1)?;
    let to_hut = below(&rt, Hop::new(Wire::new(), Store::new()), &[2]);
    let back = below(&rt, Hop::new(Store::new(), Wire::new()), &[1]);
    follow_new(&rt, (to_hut, back), &book, "over hops", &OVER_HOPS);
    Ok(())
}
