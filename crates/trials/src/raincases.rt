//! The rain: its marks, their order and their limits.
use crate::crossings::{Seen, below, follow, opening};
use channel::{Full, Poll, Used};
use channels::{Hop, Mark, Rain, Store};
use loads::{EmptyLoad, Frame, Reading, answer_number};

const SEVEN: Frame<Reading> = Frame {
    first: true,
    last: false,
    toggle: false,
    load: Reading { value: 7 },
};

const IN_ORDER: [Seen<Reading>; 15] = [
    (Used::Poll(Poll::Empty), false),
    (Used::Put(SEVEN, Ok(())), true),
    (Used::Poll(Poll::Lost), false),
    (Used::Poll(Poll::Empty), false),
    (Used::Put(SEVEN, Ok(())), true),
    (Used::Put(SEVEN, Err(Full)), true),
    (Used::Poll(Poll::Still), true),
    (Used::Poll(Poll::Arrived(SEVEN)), false),
    (Used::Put(SEVEN, Ok(())), true),
    (Used::Poll(Poll::Arrived(SEVEN)), false),
    (Used::Put(SEVEN, Ok(())), true),
    (Used::Poll(Poll::Lost), false),
    (Used::Put(SEVEN, Ok(())), true),
    (Used::Poll(Poll::Arrived(SEVEN)), false),
    (Used::Poll(Poll::Empty), false),
];

#[test]
fn marks_are_taken_in_order_and_pass_after_the_last(rt: HostRuntime) {
    let mut rain = below(&rt, Store::new(), &[1, 2, 0, 1]);
    follow(&rt, &mut rain, &IN_ORDER);
}

// The hop below would have moved the frame to far, had it been polled.
#[test]
fn a_delay_does_not_poll_below(rt: HostRuntime) {
    let frame = opening(EmptyLoad);
    let mut rain = below(&rt, Hop::new(Store::new(), Store::new()), &[2]);
    follow(
        &rt,
        &mut rain,
        &[
            (Used::Put(frame, Ok(())), true),
            (Used::Poll(Poll::Still), true),
        ],
    );
    let (mut near, mut far) = rain.into_below().into_parts();
    follow(&rt, &mut far, &[(Used::Poll(Poll::Empty), false)]);
    follow(&rt, &mut near, &[(Used::Poll(Poll::Arrived(frame)), false)]);
}

#[test]
fn a_frame_that_was_below_before_has_no_mark(rt: HostRuntime) {
    let frame = opening(Reading { value: 7 });
    let mut store = Store::new();
    follow(&rt, &mut store, &[(Used::Put(frame, Ok(())), true)]);
    let mut rain = below(&rt, store, &[1]);
    follow(
        &rt,
        &mut rain,
        &[
            (Used::Put(frame, Err(Full)), true),
            (Used::Poll(Poll::Arrived(frame)), false),
            (Used::Put(frame, Ok(())), true),
            (Used::Poll(Poll::Lost), false),
        ],
    );
}

#[test]
fn the_sixty_fourth_mark_is_the_last(rt: HostRuntime) {
    let frame = opening(EmptyLoad);
    let mut marks = [0; 64];
    marks[63] = 1;
    let mut rain = below(&rt, Store::new(), &marks);
    for _ in 0..63 {
        follow(
            &rt,
            &mut rain,
            &[
                (Used::Put(frame, Ok(())), true),
                (Used::Poll(Poll::Arrived(frame)), false),
            ],
        );
    }
    follow(
        &rt,
        &mut rain,
        &[
            (Used::Put(frame, Ok(())), true),
            (Used::Poll(Poll::Lost), false),
            (Used::Put(frame, Ok(())), true),
            (Used::Poll(Poll::Arrived(frame)), false),
        ],
    );
}

// Marks, and the number that making a rain with them answers.
const MARKS: [(&[u8], u8); 7] = [
    (&[], 0),
    (&[0, 1, 2], 0),
    (&[3], 21),
    (&[255, 0], 21),
    (&[0, 1, 2, 3], 21),
    (&[2; 64], 0),
    (&[0; 65], 21),
];

#[test]
fn marks_have_their_limits(rt: HostRuntime) {
    for (marks, number) in MARKS {
        let answer = Rain::new(Store::<EmptyLoad>::new(), marks);
        assert_eq!(rt; answer_number(&answer), number, "{marks:?}");
    }
}

// Marks that are kept as marks, and the number that making a rain of them answers.
const KEPT_MARKS: [(&[Mark], u8); 4] = [
    (&[], 0),
    (&[Mark::Pass, Mark::Lose, Mark::Delay], 0),
    (&[Mark::Delay; 64], 0),
    (&[Mark::Pass; 65], 21),
];

#[test]
fn kept_marks_have_their_limit(rt: HostRuntime) {
    for (marks, number) in KEPT_MARKS {
        let answer = Rain::of_marks(Store::<EmptyLoad>::new(), marks);
        assert_eq!(rt; answer_number(&answer), number, "{marks:?}");
    }
}

#[test]
fn kept_marks_are_taken_in_order(rt: HostRuntime) {
    let marks = [Mark::Lose, Mark::Delay, Mark::Pass, Mark::Lose];
    let mut rain = Rain::of_marks(Store::new(), &marks).unwrap();
    follow(&rt, &mut rain, &IN_ORDER);
}

#[test]
fn a_refused_channel_comes_back_as_it_was(rt: HostRuntime) {
    let frame = opening(Reading { value: 7 });
    let mut store = Store::new();
    follow(&rt, &mut store, &[(Used::Put(frame, Ok(())), true)]);
    let refused = Rain::new(store, &[0; 65]).unwrap_err();
    let mut store = refused.below;
    follow(
        &rt,
        &mut store,
        &[(Used::Poll(Poll::Arrived(frame)), false)],
    );
}
