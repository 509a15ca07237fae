//! Rows of uses, and how much of a row the log has room for.
use crate::crossings::{closing, opening};
use channel::{Channel, Full, Poll, Use, Used, make_uses};
use channels::{Store, Wire};
use loads::{EmptyLoad, Frame, Piece, Reading};
use std::test::Fail;

// Uses of a channel that has room for one frame.
fn five_uses<T: Copy>(one: Frame<T>, two: Frame<T>) -> [Use<T>; 5] {
    [
        Use::Poll,
        Use::Put(one),
        Use::Put(two),
        Use::Poll,
        Use::Poll,
    ]
}

// How they are logged where nothing waited and none is lost, and an entry that no use wrote.
fn five_logged<T: Copy>(one: Frame<T>, two: Frame<T>) -> [Used<T>; 6] {
    [
        Used::Poll(Poll::Empty),
        Used::Put(one, Ok(())),
        Used::Put(two, Err(Full)),
        Used::Poll(Poll::Arrived(one)),
        Used::Poll(Poll::Empty),
        Used::Poll(Poll::Still),
    ]
}

#[test]
fn uses_are_logged_with_their_answers(rt: HostRuntime) -> Result<(), Fail> {
    let one = opening(Piece::new(0, 0, 0, 1, 1)?);
    let two = closing(Piece::new(0, 0, 0, 2, 2)?);
    let mut log = [Used::Poll(Poll::Still); 6];
    let mut wire = Wire::new();
    assert_eq!(rt; make_uses(&mut wire, &five_uses(one, two), &mut log), 5);
    assert!(rt; !wire.holds());
    assert_eq!(rt; log, five_logged(one, two));
    Ok(())
}

#[test]
fn uses_of_a_store_are_logged_with_their_answers(rt: HostRuntime) {
    let one = opening(Reading { value: 1 });
    let two = closing(Reading { value: 2 });
    let mut log = [Used::Poll(Poll::Still); 6];
    let mut store = Store::new();
    assert_eq!(rt; make_uses(&mut store, &five_uses(one, two), &mut log), 5);
    assert!(rt; !store.holds());
    assert_eq!(rt; log, five_logged(one, two));
}

#[test]
fn no_more_uses_are_made_than_the_log_has_room_for(rt: HostRuntime) {
    let frame = opening(EmptyLoad);
    let uses = [Use::Put(frame), Use::Poll];
    let mut store = Store::new();
    let mut log = [Used::Poll(Poll::Still); 1];
    assert_eq!(rt; make_uses(&mut store, &uses, &mut log[0..0]), 0);
    assert!(rt; !store.holds());
    assert_eq!(rt; log, [Used::Poll(Poll::Still)]);
    assert_eq!(rt; make_uses(&mut store, &uses, &mut log), 1);
    assert!(rt; store.holds());
    assert_eq!(rt; log, [Used::Put(frame, Ok(()))]);
    assert_eq!(rt; make_uses(&mut store, &[Use::Poll], &mut log), 1);
    assert!(rt; !store.holds());
    assert_eq!(rt; log, [Used::Poll(Poll::Arrived(frame))]);
}

#[test]
fn no_more_readings_are_put_than_the_log_has_room_for(rt: HostRuntime) {
    let frame = opening(Reading { value: 1 });
    let uses = [Use::Put(frame), Use::Poll];
    let mut store = Store::new();
    let mut log = [Used::Poll(Poll::Still); 1];
    assert_eq!(rt; make_uses(&mut store, &uses, &mut log[0..0]), 0);
    assert_eq!(rt; log, [Used::Poll(Poll::Still)]);
    assert_eq!(rt; make_uses(&mut store, &uses, &mut log), 1);
    assert_eq!(rt; log, [Used::Put(frame, Ok(()))]);
    assert_eq!(rt; make_uses(&mut store, &[Use::Poll], &mut log), 1);
    assert_eq!(rt; log, [Used::Poll(Poll::Arrived(frame))]);
}
