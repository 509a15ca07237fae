//! The timer question at its limits.
use link::{TimerRefusal, timers_fit};

const TOO_MANY: Result<(), TimerRefusal> = Err(TimerRefusal::TooManyRepeats);

const SHORT_REPLY: Result<(), TimerRefusal> = Err(TimerRefusal::ShortReplyTimer);

const SHORT_HUT: Result<(), TimerRefusal> = Err(TimerRefusal::ShortHutTimer);

// The repeats, the bound, t1, t2, and whether they fit.
const TIMERS: [(u8, u16, u16, u16, Result<(), TimerRefusal>); 12] = [
    // the sender waits longer than a frame and its reply
    (2, 2, 4, 0, SHORT_REPLY),
    (2, 2, 5, 11, Ok(())),
    (0, 0, 0, 1, SHORT_REPLY),
    (0, 0, 1, 1, Ok(())),
    // the hut waits longer than all repeats
    (2, 2, 5, 10, SHORT_HUT),
    (0, 2, 5, 0, SHORT_HUT),
    (0, 2, 5, 1, Ok(())),
    // no timer overflows
    (10, 65_535, 65_535, 65_535, SHORT_REPLY),
    (10, 32_767, 65_535, 65_535, SHORT_HUT),
    (1, 32_766, 65_533, 65_534, Ok(())),
    // too many repeats come first
    (11, 2, 0, 0, TOO_MANY),
    (10, 2, 5, 51, Ok(())),
];

#[test]
fn timers_have_their_limits(rt: HostRuntime) {
    for (i, (repeats, bound, t1, t2, answer)) in TIMERS.iter().enumerate() {
        assert_eq!(rt;
            timers_fit(*repeats, *bound, *t1, *t2),
            *answer,
            "timers {i}"
        );
    }
}
