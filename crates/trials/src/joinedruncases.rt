//! Links that join and make their calls at once, and those that are refused and hand their channels back.
use crate::keptcases::{Kept, make_kept};
use crate::linksteps::{
    ARRIVED, DONE, FIRST_7, NOT_OK, OK, ONE, ONLY_7, TWO, UNUSED, book_of, readings,
};
use channel::{Channel, Poll};
use channels::{Store, Wire};
use link::{Answer, Call, Event, Link, LinkRefusal, Word};
use loads::{EmptyLoad, Frame, Reading};
use std::alloc::Global;
use std::process::Abort;
use std::test::Fail;

// The log before a run over a book of two readings, the log after it, and the outcome then.
struct Run {
    name: &'static str,
    repeats: u8,
    calls: &'static [Call],
    before: &'static [Event<Reading>],
    after: &'static [Event<Reading>],
    outcome: Result<(Word, u32), LinkRefusal>,
}

// Another event that no run here writes.
const OTHER: Event<Reading> = Event {
    call: Call::Break,
    answer: Err(LinkRefusal::NotJoined),
};

const RUNS: [Run; 3] = [
    Run {
        name: "one load",
        repeats: 0,
        calls: &[
            ONE,
            Call::Send,
            Call::Carry,
            Call::Tell,
            Call::Reply,
            Call::Return,
            Call::Confirm,
        ],
        before: &[
            UNUSED, UNUSED, UNUSED, UNUSED, UNUSED, UNUSED, UNUSED, UNUSED, OTHER,
        ],
        after: &[
            Event {
                call: ONE,
                answer: DONE,
            },
            Event {
                call: Call::Send,
                answer: DONE,
            },
            Event {
                call: Call::Carry,
                answer: ARRIVED,
            },
            Event {
                call: Call::Tell,
                answer: ONLY_7,
            },
            Event {
                call: Call::Reply,
                answer: DONE,
            },
            Event {
                call: Call::Return,
                answer: ARRIVED,
            },
            Event {
                call: Call::Confirm,
                answer: OK,
            },
            UNUSED,
            OTHER,
        ],
        outcome: Ok((Word::Ok, 1)),
    },
    Run {
        name: "the first of two loads",
        repeats: 10,
        calls: &[
            TWO,
            Call::Send,
            Call::Carry,
            Call::Tell,
            Call::Reply,
            Call::Return,
            Call::Abandon,
            Call::Confirm,
        ],
        before: &[
            UNUSED, UNUSED, UNUSED, UNUSED, UNUSED, UNUSED, UNUSED, UNUSED,
        ],
        after: &[
            Event {
                call: TWO,
                answer: DONE,
            },
            Event {
                call: Call::Send,
                answer: DONE,
            },
            Event {
                call: Call::Carry,
                answer: ARRIVED,
            },
            Event {
                call: Call::Tell,
                answer: FIRST_7,
            },
            Event {
                call: Call::Reply,
                answer: DONE,
            },
            Event {
                call: Call::Return,
                answer: ARRIVED,
            },
            Event {
                call: Call::Abandon,
                answer: DONE,
            },
            Event {
                call: Call::Confirm,
                answer: NOT_OK,
            },
        ],
        outcome: Ok((Word::NotOk, 1)),
    },
    Run {
        name: "no calls",
        repeats: 0,
        calls: &[],
        before: &[OTHER, UNUSED],
        after: &[OTHER, UNUSED],
        outcome: Err(LinkRefusal::NoneConfirmed),
    },
];

// The run is accepted, and leaves its log and its outcome.
fn make_run(rt: &impl Abort, heap: Global, run: &Run) -> Result<(), Fail> {
    let book = readings(heap, 2)?;
    let mut log = run.before.to_vec(heap)?;
    let name = run.name;
    let (to_hut, back) = (Wire::new(), Store::new());
    let Ok(link) = Link::joined_run(to_hut, back, run.repeats, &book, run.calls, &mut log) else {
        panic!(rt; "{name}: refused");
    };
    assert_eq!(rt; log.as_slice(), run.after, "{name}");
    assert_eq!(rt; link.outcome(), run.outcome, "{name}");
    Ok(())
}

#[test]
fn joined_runs_write_their_logs(rt: HostRuntime) -> Result<(), Fail> {
    for run in &RUNS {
        make_run(&rt, rt.alloc(), run)?;
    }
    Ok(())
}

// A run with a log of one entry, what waits in either channel before and after it, and why it is refused.
struct Refused {
    repeats: u8,
    to_hut: Poll<EmptyLoad>,
    back: Poll<EmptyLoad>,
    calls: &'static [Call],
    refusal: LinkRefusal,
}

const TO_HUT: Poll<EmptyLoad> = Poll::Arrived(Frame {
    first: true,
    last: false,
    toggle: false,
    load: EmptyLoad,
});

const BACK: Poll<EmptyLoad> = Poll::Arrived(Frame {
    first: false,
    last: true,
    toggle: true,
    load: EmptyLoad,
});

// The log of every run that is refused, before and after it.
const LOG: [Event<EmptyLoad>; 1] = [Event {
    call: Call::Meet,
    answer: Ok(Answer::Confirmed(Word::DontKnow)),
}];

// Where two refusals apply, the smaller is given.
const REFUSED: [Refused; 7] = [
    Refused {
        repeats: 11,
        to_hut: Poll::Empty,
        back: Poll::Empty,
        calls: &[ONE],
        refusal: LinkRefusal::TooManyRepeats,
    },
    Refused {
        repeats: 255,
        to_hut: TO_HUT,
        back: BACK,
        calls: &[ONE, Call::Send],
        refusal: LinkRefusal::TooManyRepeats,
    },
    Refused {
        repeats: 10,
        to_hut: TO_HUT,
        back: Poll::Empty,
        calls: &[ONE],
        refusal: LinkRefusal::ChannelHolds,
    },
    Refused {
        repeats: 10,
        to_hut: Poll::Empty,
        back: BACK,
        calls: &[ONE],
        refusal: LinkRefusal::ChannelHolds,
    },
    Refused {
        repeats: 0,
        to_hut: TO_HUT,
        back: BACK,
        calls: &[ONE, Call::Send],
        refusal: LinkRefusal::ChannelHolds,
    },
    Refused {
        repeats: 0,
        to_hut: Poll::Empty,
        back: BACK,
        calls: &[],
        refusal: LinkRefusal::ChannelHolds,
    },
    Refused {
        repeats: 10,
        to_hut: Poll::Empty,
        back: Poll::Empty,
        calls: &[ONE, Call::Send],
        refusal: LinkRefusal::ShortLog,
    },
];

// A channel that cannot be let go, with what waits in it.
fn filled(rt: &impl Abort, waiting: &Poll<EmptyLoad>) -> Kept {
    let mut kept = make_kept();
    if let Poll::Arrived(frame) = waiting {
        assert_eq!(rt; kept.put(frame), Ok(()));
    }
    kept
}

// Takes it apart, and gives what waited in it.
fn emptied(kept: Kept) -> Poll<EmptyLoad> {
    let Kept { mut store } = kept;
    store.poll()
}

type KeptLink = Link<EmptyLoad, Kept, Kept>;

// The run is refused, its log stays, and the channels come back with what waited in them.
fn refuse(rt: &impl Abort, heap: Global, case: &Refused) -> Result<(), Fail> {
    let book = book_of::<EmptyLoad>(heap, 1, &[])?;
    let mut log = LOG;
    let to_hut = filled(rt, &case.to_hut);
    let back = filled(rt, &case.back);
    let ran = KeptLink::joined_run(to_hut, back, case.repeats, &book, case.calls, &mut log);
    let (refusal, to_hut, back) = match ran {
        Ok(link) => {
            let (to_hut, back) = link.into_parts();
            (None, to_hut, back)
        }
        Err(not) => (Some(not.refusal), not.to_hut, not.back),
    };
    let seen = (refusal, emptied(to_hut), emptied(back));
    assert_eq!(rt; seen, (Some(case.refusal), case.to_hut, case.back));
    assert_eq!(rt; log, LOG);
    Ok(())
}

#[test]
fn refused_runs_hand_their_channels_back(rt: HostRuntime) -> Result<(), Fail> {
    for case in &REFUSED {
        refuse(&rt, rt.alloc(), case)?;
    }
    Ok(())
}
