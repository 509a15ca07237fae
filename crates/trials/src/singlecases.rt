//! The store and the wire: one frame, which arrives.
use crate::crossings::{Seen, closing, follow, opening};
use channel::{Full, Poll, Used};
use channels::{Store, Wire};
use loads::{EmptyLoad, Frame, Piece, Reading};
use std::test::Fail;

// Two frames through a channel that holds one and loses none.
fn two_cross<T: Copy>(first: Frame<T>, second: Frame<T>) -> [Seen<T>; 8] {
    [
        (Used::Poll(Poll::Empty), false),
        (Used::Put(first, Ok(())), true),
        (Used::Put(second, Err(Full)), true),
        (Used::Poll(Poll::Arrived(first)), false),
        (Used::Poll(Poll::Empty), false),
        (Used::Put(second, Ok(())), true),
        (Used::Poll(Poll::Arrived(second)), false),
        (Used::Poll(Poll::Empty), false),
    ]
}

#[test]
fn readings_cross_a_store_and_a_wire(rt: HostRuntime) {
    let row = two_cross(
        opening(Reading { value: 7 }),
        closing(Reading {
            value: 4_294_967_295,
        }),
    );
    follow(&rt, &mut Store::new(), &row);
    follow(&rt, &mut Wire::new(), &row);
}

#[test]
fn pieces_cross_a_store_and_a_wire(rt: HostRuntime) -> Result<(), Fail> {
    let row = two_cross(
        opening(Piece::new(0, 0, 0, 0, 0)?),
        closing(Piece::new(20, 1_048_575, 349_525, 3, 81_985_529_216_486_895)?),
    );
    follow(&rt, &mut Store::new(), &row);
    follow(&rt, &mut Wire::new(), &row);
    Ok(())
}

#[test]
fn replies_cross_a_store_and_a_wire(rt: HostRuntime) {
    let row = two_cross(opening(EmptyLoad), closing(EmptyLoad));
    follow(&rt, &mut Store::new(), &row);
    follow(&rt, &mut Wire::new(), &row);
}
