//! What the cases on channels share: frames, rains, and rows of uses that a channel is held against.
use channel::{Channel, Use, Used};
use channels::Rain;
use loads::{Frame, Load};
use std::fmt::Debug;
use std::process::Abort;

// A load in a frame with these bits: first, last and toggle.
fn framed<T>([first, last, toggle]: [bool; 3], load: T) -> Frame<T> {
    Frame {
        first,
        last,
        toggle,
        load,
    }
}

/// The first frame of a message, with its toggle off.
pub fn opening<T>(load: T) -> Frame<T> {
    framed([true, false, false], load)
}

/// The last frame of a message, with its toggle on.
pub fn closing<T>(load: T) -> Frame<T> {
    framed([false, true, true], load)
}

/// A channel below a rain of these marks.
pub fn below<'m, C: Drop>(rt: &impl Abort, channel: C, marks: &'m [u8]) -> Rain<'m, C> {
    let Ok(rain) = Rain::new(channel, marks) else {
        panic!(rt; "these are no marks");
    };
    rain
}

/// A use of a channel with its answer, and whether a frame waits then.
pub type Seen<T> = (Used<T>, bool);

/// Makes each use of a row in order. The channel must answer as the row says, and then hold a frame or not.
pub fn follow<T: Load + Debug + PartialEq, C: Channel<T>>(
    rt: &impl Abort,
    channel: &mut C,
    row: &[Seen<T>],
) {
    for (i, (used, waits)) in row.iter().enumerate() {
        let wanted = match used {
            Used::Put(frame, _) => Use::Put(*frame),
            Used::Poll(_) => Use::Poll,
        };
        assert_eq!(rt; wanted.make(channel), *used, "use {i}");
        assert_eq!(rt; channel.holds(), *waits, "after use {i}");
    }
}
