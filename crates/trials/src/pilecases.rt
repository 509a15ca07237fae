//! A pile five deep: a rain over a hop, whose near is a rain over a hop from a wire to a store.
use crate::crossings::{Seen, follow, opening};
use channel::{Full, Poll, Used};
use channels::{Hop, Rain, Store, Wire};
use loads::{EmptyLoad, Frame, Load, Piece, Reading};
use std::fmt::Debug;
use std::process::Abort;
use std::test::Fail;

// Three puts of a frame that are accepted, and others that are not. The first is delayed once in the inner rain, moves
// along both hops, and is lost in the outer rain; the second is lost in the inner rain; the third arrives.
fn three_cross<T: Copy>(frame: Frame<T>) -> [Seen<T>; 20] {
    [
        (Used::Poll(Poll::Empty), false),
        (Used::Put(frame, Ok(())), true),
        (Used::Put(frame, Err(Full)), true),
        (Used::Poll(Poll::Still), true),
        (Used::Poll(Poll::Still), true),
        (Used::Put(frame, Err(Full)), true),
        (Used::Poll(Poll::Still), true),
        (Used::Put(frame, Err(Full)), true),
        (Used::Poll(Poll::Lost), false),
        (Used::Poll(Poll::Empty), false),
        (Used::Put(frame, Ok(())), true),
        (Used::Poll(Poll::Still), true),
        (Used::Poll(Poll::Lost), false),
        (Used::Poll(Poll::Empty), false),
        (Used::Put(frame, Ok(())), true),
        (Used::Poll(Poll::Still), true),
        (Used::Poll(Poll::Still), true),
        (Used::Put(frame, Err(Full)), true),
        (Used::Poll(Poll::Arrived(frame)), false),
        (Used::Poll(Poll::Empty), false),
    ]
}

// The inner rain has marks 2 and 1, the outer 1 and 0; the third frame has none left in the inner.
fn cross<T: Load + Debug + PartialEq>(rt: &impl Abort, row: &[Seen<T>]) {
    let inner = Rain::new(Hop::new(Wire::new(), Store::new()), &[2, 1]).unwrap();
    let mut pile = Rain::new(Hop::new(inner, Store::new()), &[1, 0]).unwrap();
    follow(rt, &mut pile, row);
}

#[test]
fn readings_cross_a_pile(rt: HostRuntime) {
    cross(&rt, &three_cross(opening(Reading { value: 7 })));
}

#[test]
fn pieces_cross_a_pile(rt: HostRuntime) -> Result<(), Fail> {
    let piece = Piece::new(20, 1_048_575, 349_525, 3, 81_985_529_216_486_895)?;
    cross(&rt, &three_cross(opening(piece)));
    Ok(())
}

#[test]
fn replies_cross_a_pile(rt: HostRuntime) {
    cross(&rt, &three_cross(opening(EmptyLoad)));
}
