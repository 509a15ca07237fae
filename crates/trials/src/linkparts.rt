//! The channels that a link hands back, with what waits in them.
use crate::crossings::{Seen, follow};
use crate::linksteps::Step::{Join, Make};
use crate::linksteps::{
    ARRIVED, Answered, DONE, FIRST_7, LAST_8, NOT_DUE, Step, TWO, follow_link, readings,
};
use channel::{Channel, Full, Poll, Used};
use channels::{Store, Wire};
use link::{Call, Link, LinkRefusal};
use loads::{Book, EmptyLoad, Frame, Reading};
use std::process::Abort;
use std::test::Fail;

// Uses of the two channels of a link.
struct Uses {
    to_hut: &'static [Seen<Reading>],
    back: &'static [Seen<EmptyLoad>],
}

// A link over channels of which these uses were made, what is done with it, and how the channels that it hands back
// answer.
struct Case {
    name: &'static str,
    before: Uses,
    steps: &'static [Step<Reading>],
    after: Uses,
}

const NOTHING_WAITS: Answered<Reading> = Err(LinkRefusal::NothingWaits);

const NOT_JOINED: Answered<Reading> = Err(LinkRefusal::NotJoined);

// The frame of the first of two readings, and of the second.
const SEVEN: Frame<Reading> = Frame {
    first: true,
    last: false,
    toggle: false,
    load: Reading { value: 7 },
};

const EIGHT: Frame<Reading> = Frame {
    first: false,
    last: true,
    toggle: true,
    load: Reading { value: 8 },
};

// The reply to each.
const FIRST_REPLY: Frame<EmptyLoad> = Frame {
    first: true,
    last: false,
    toggle: false,
    load: EmptyLoad,
};

const LAST_REPLY: Frame<EmptyLoad> = Frame {
    first: false,
    last: true,
    toggle: true,
    load: EmptyLoad,
};

const UNUSED: Uses = Uses {
    to_hut: &[],
    back: &[],
};

const CASES: [Case; 6] = [
    Case {
        name: "nothing was put",
        before: UNUSED,
        steps: &[Join(0, Ok(())), Make(TWO, DONE)],
        after: Uses {
            to_hut: &[(Used::Poll(Poll::Empty), false)],
            back: &[(Used::Poll(Poll::Empty), false)],
        },
    },
    Case {
        name: "a frame is sent",
        before: UNUSED,
        steps: &[
            Join(0, Ok(())),
            Make(TWO, DONE),
            Make(Call::Send, DONE),
            Make(Call::Send, NOT_DUE),
            Make(Call::Return, NOTHING_WAITS),
        ],
        after: Uses {
            to_hut: &[
                (Used::Put(EIGHT, Err(Full)), true),
                (Used::Poll(Poll::Arrived(SEVEN)), false),
            ],
            back: &[(Used::Poll(Poll::Empty), false)],
        },
    },
    Case {
        name: "a reply is put",
        before: UNUSED,
        steps: &[
            Join(0, Ok(())),
            Make(TWO, DONE),
            Make(Call::Send, DONE),
            Make(Call::Carry, ARRIVED),
            Make(Call::Tell, FIRST_7),
            Make(Call::Reply, DONE),
            Make(Call::Reply, NOT_DUE),
            Make(Call::Carry, NOTHING_WAITS),
        ],
        after: Uses {
            to_hut: &[(Used::Poll(Poll::Empty), false)],
            back: &[
                (Used::Put(LAST_REPLY, Err(Full)), true),
                (Used::Poll(Poll::Arrived(FIRST_REPLY)), false),
            ],
        },
    },
    Case {
        name: "the last frame is sent",
        before: UNUSED,
        steps: &[
            Join(0, Ok(())),
            Make(TWO, DONE),
            Make(Call::Send, DONE),
            Make(Call::Carry, ARRIVED),
            Make(Call::Tell, FIRST_7),
            Make(Call::Reply, DONE),
            Make(Call::Return, ARRIVED),
            Make(Call::Send, DONE),
        ],
        after: Uses {
            to_hut: &[(Used::Poll(Poll::Arrived(EIGHT)), false)],
            back: &[(Used::Poll(Poll::Empty), false)],
        },
    },
    Case {
        name: "the last reply is put",
        before: UNUSED,
        steps: &[
            Join(0, Ok(())),
            Make(TWO, DONE),
            Make(Call::Send, DONE),
            Make(Call::Carry, ARRIVED),
            Make(Call::Tell, FIRST_7),
            Make(Call::Reply, DONE),
            Make(Call::Return, ARRIVED),
            Make(Call::Send, DONE),
            Make(Call::Carry, ARRIVED),
            Make(Call::Tell, LAST_8),
            Make(Call::Reply, DONE),
        ],
        after: Uses {
            to_hut: &[(Used::Poll(Poll::Empty), false)],
            back: &[(Used::Poll(Poll::Arrived(LAST_REPLY)), false)],
        },
    },
    // in both channels at once only where a link does not join
    Case {
        name: "a frame and a reply waited before",
        before: Uses {
            to_hut: &[(Used::Put(EIGHT, Ok(())), true)],
            back: &[(Used::Put(FIRST_REPLY, Ok(())), true)],
        },
        steps: &[
            Join(0, Err(LinkRefusal::ChannelHolds)),
            Make(Call::Carry, NOT_JOINED),
            Make(Call::Return, NOT_JOINED),
        ],
        after: Uses {
            to_hut: &[(Used::Poll(Poll::Arrived(EIGHT)), false)],
            back: &[(Used::Poll(Poll::Arrived(FIRST_REPLY)), false)],
        },
    },
];

// Follows a case over these channels.
fn hands_back<K: Channel<Reading> + Drop, L: Channel<EmptyLoad> + Drop>(
    rt: &impl Abort,
    (mut to_hut, mut back): (K, L),
    book: &Book<Reading>,
    case: &Case,
) {
    follow(rt, &mut to_hut, case.before.to_hut);
    follow(rt, &mut back, case.before.back);
    let mut link = Link::new(to_hut, back);
    follow_link(rt, &mut link, book, case.name, case.steps);
    let (mut to_hut, mut back) = link.into_parts();
    follow(rt, &mut to_hut, case.after.to_hut);
    follow(rt, &mut back, case.after.back);
}

#[test]
fn a_link_hands_back_what_was_put(rt: HostRuntime) -> Result<(), Fail> {
    let book = readings(rt.alloc(), 2)?;
    for case in &CASES {
        hands_back(&rt, (Wire::new(), Store::new()), &book, case);
        hands_back(&rt, (Store::new(), Wire::new()), &book, case);
    }
    Ok(())
}
