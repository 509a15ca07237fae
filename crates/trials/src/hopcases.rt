//! The hop: near and far, empty and holding.
use crate::crossings::{Seen, below, follow, opening};
use channel::{Full, Poll, Used};
use channels::{Hop, Store, Wire};
use loads::{EmptyLoad, Frame, Piece, Reading};
use std::test::Fail;

const EMPTY: Frame<EmptyLoad> = Frame {
    first: true,
    last: false,
    toggle: false,
    load: EmptyLoad,
};

const MOVES: [Seen<EmptyLoad>; 7] = [
    (Used::Poll(Poll::Empty), false),
    (Used::Put(EMPTY, Ok(())), true),
    (Used::Put(EMPTY, Err(Full)), true),
    (Used::Poll(Poll::Still), true),
    (Used::Put(EMPTY, Err(Full)), true),
    (Used::Poll(Poll::Arrived(EMPTY)), false),
    (Used::Poll(Poll::Empty), false),
];

#[test]
fn a_frame_takes_a_poll_to_move_along_a_hop(rt: HostRuntime) {
    follow(&rt, &mut Hop::new(Wire::new(), Store::new()), &MOVES);
}

const OLDER: Frame<Reading> = Frame {
    first: true,
    last: false,
    toggle: false,
    load: Reading { value: 1 },
};

const NEWER: Frame<Reading> = Frame {
    first: false,
    last: true,
    toggle: true,
    load: Reading { value: 2 },
};

const FAR_FIRST: [Seen<Reading>; 6] = [
    (Used::Put(OLDER, Err(Full)), true),
    (Used::Poll(Poll::Arrived(OLDER)), true),
    (Used::Put(OLDER, Err(Full)), true),
    (Used::Poll(Poll::Still), true),
    (Used::Poll(Poll::Arrived(NEWER)), false),
    (Used::Put(OLDER, Ok(())), true),
];

#[test]
fn a_hop_that_holds_two_frames_gives_the_far_one_first(rt: HostRuntime) {
    let mut near = Wire::new();
    let mut far = Store::new();
    follow(&rt, &mut near, &[(Used::Put(NEWER, Ok(())), true)]);
    follow(&rt, &mut far, &[(Used::Put(OLDER, Ok(())), true)]);
    follow(&rt, &mut Hop::new(near, far), &FAR_FIRST);
}

#[test]
fn what_far_answers_is_passed_on(rt: HostRuntime) -> Result<(), Fail> {
    let frame = opening(Piece::new(20, 1_048_575, 349_525, 3, 81_985_529_216_486_895)?);
    let far = below(&rt, Store::new(), &[2, 1]);
    follow(
        &rt,
        &mut Hop::new(Wire::new(), far),
        &[
            (Used::Put(frame, Ok(())), true),
            (Used::Poll(Poll::Still), true),
            (Used::Poll(Poll::Still), true),
            (Used::Poll(Poll::Arrived(frame)), false),
            (Used::Put(frame, Ok(())), true),
            (Used::Poll(Poll::Still), true),
            (Used::Poll(Poll::Lost), false),
            (Used::Poll(Poll::Empty), false),
        ],
    );
    Ok(())
}

#[test]
fn a_hop_hands_its_channels_back(rt: HostRuntime) {
    let mut hop = Hop::new(Wire::new(), Store::new());
    follow(&rt, &mut hop, &[(Used::Put(OLDER, Ok(())), true)]);
    let (mut near, mut far) = hop.into_parts();
    follow(&rt, &mut far, &[(Used::Poll(Poll::Empty), false)]);
    follow(
        &rt,
        &mut near,
        &[
            (Used::Poll(Poll::Arrived(OLDER)), false),
            (Used::Poll(Poll::Empty), false),
        ],
    );
}
