//! The hut's end by itself: at which places it takes a frame that arrives, and that elsewhere it lets the frame go.
use channel::{Channel, Poll};
use channels::Store;
use link::{Hut, LinkRefusal, Position};
use loads::{EmptyLoad, Frame, Reading};
use std::process::Abort;

// What is done with a hut's end, with what it must answer. A reply is put into an empty store, which is polled then.
#[derive(Clone, Copy, Debug, PartialEq)]
enum Step {
    Carry(Frame<Reading>),
    Tell(Result<(Position, Reading), LinkRefusal>),
    Reply(Result<(), LinkRefusal>, Poll<EmptyLoad>),
    Part,
    Break(Result<(), LinkRefusal>),
    Meet(Result<(), LinkRefusal>),
}

// What leads a hut's end to a place, and what it does from there on.
struct Case {
    name: &'static str,
    before: &'static [Step],
    after: &'static [Step],
}

// The first load of a message, and its reply.
const SEVEN: Frame<Reading> = Frame {
    first: true,
    last: false,
    toggle: false,
    load: Reading { value: 7 },
};

const SEVEN_REPLIED: Step = Step::Reply(
    Ok(()),
    Poll::Arrived(Frame {
        first: true,
        last: false,
        toggle: false,
        load: EmptyLoad,
    }),
);

// The last load of the message, and its reply.
const EIGHT: Frame<Reading> = Frame {
    first: false,
    last: true,
    toggle: true,
    load: Reading { value: 8 },
};

const EIGHT_REPLIED: Step = Step::Reply(
    Ok(()),
    Poll::Arrived(Frame {
        first: false,
        last: true,
        toggle: true,
        load: EmptyLoad,
    }),
);

const SEVEN_TOLD: Step = Step::Tell(Ok((Position::First, Reading { value: 7 })));

const EIGHT_TOLD: Step = Step::Tell(Ok((Position::Ok, Reading { value: 8 })));

const NO_TELL: Step = Step::Tell(Err(LinkRefusal::NotDue));

const NO_REPLY: Step = Step::Reply(Err(LinkRefusal::NotDue), Poll::Empty);

const NO_BREAK: Step = Step::Break(Err(LinkRefusal::NotDue));

const NO_MEET: Step = Step::Meet(Err(LinkRefusal::NotDue));

// Does a step, and gives it with what the hut's end answers.
fn take(hut: &mut Hut<Reading>, step: &Step) -> Step {
    match *step {
        Step::Carry(frame) => {
            hut.carry(&frame);
            *step
        }
        Step::Tell(_) => Step::Tell(hut.tell()),
        Step::Reply(_, _) => {
            let mut back = Store::new();
            let answer = hut.reply(&mut back);
            Step::Reply(answer, back.poll())
        }
        Step::Part => {
            hut.part();
            *step
        }
        Step::Break(_) => Step::Break(hut.tell_break()),
        Step::Meet(_) => Step::Meet(hut.meet()),
    }
}

// Does each step in order. The hut's end must answer as it says.
fn follow_hut(rt: &impl Abort, hut: &mut Hut<Reading>, name: &str, steps: &[Step]) {
    for (i, step) in steps.iter().enumerate() {
        assert_eq!(rt; take(hut, step), *step, "{name}, step {i}");
    }
}

// Follows a case, with these steps between what leads to its place and what is done from there on.
fn follow_case(rt: &impl Abort, case: &Case, between: &[Step]) {
    let mut hut = Hut::new();
    follow_hut(rt, &mut hut, case.name, case.before);
    follow_hut(rt, &mut hut, case.name, between);
    follow_hut(rt, &mut hut, case.name, case.after);
}

// Where a frame is awaited, it is taken: to be told, or to be replied to again.
const TAKEN: [Case; 4] = [
    Case {
        name: "WF, where toggles are not compared",
        before: &[],
        after: &[Step::Carry(EIGHT), EIGHT_TOLD, EIGHT_REPLIED],
    },
    Case {
        name: "WF, the next toggle",
        before: &[Step::Carry(SEVEN), SEVEN_TOLD, SEVEN_REPLIED],
        after: &[Step::Carry(EIGHT), EIGHT_TOLD, EIGHT_REPLIED, NO_REPLY],
    },
    // the timer is off with it, so a part leads to no break
    Case {
        name: "WF, the next toggle and a part",
        before: &[Step::Carry(SEVEN), SEVEN_TOLD, SEVEN_REPLIED],
        after: &[Step::Carry(EIGHT), Step::Part, NO_BREAK, EIGHT_TOLD],
    },
    // the timer is still on, so a part leads to a break
    Case {
        name: "WF, the toggle of before and a part",
        before: &[Step::Carry(SEVEN), SEVEN_TOLD, SEVEN_REPLIED],
        after: &[Step::Carry(SEVEN), NO_TELL, Step::Part, Step::Break(Ok(()))],
    },
];

#[test]
fn a_frame_is_taken_where_one_is_awaited(rt: HostRuntime) {
    for case in &TAKEN {
        follow_case(&rt, case, &[]);
    }
}

// At each other place the same is done whether or not frames arrive there.
const KEPT: [Case; 6] = [
    Case {
        name: "SI, the first load",
        before: &[Step::Carry(SEVEN)],
        after: &[SEVEN_TOLD, SEVEN_REPLIED, Step::Carry(EIGHT), EIGHT_TOLD],
    },
    Case {
        name: "SI, the next load",
        before: &[
            Step::Carry(SEVEN),
            SEVEN_TOLD,
            SEVEN_REPLIED,
            Step::Carry(EIGHT),
        ],
        after: &[NO_REPLY, EIGHT_TOLD, EIGHT_REPLIED, Step::Part, NO_BREAK],
    },
    // toggles are compared, and the next is on
    Case {
        name: "SA",
        before: &[Step::Carry(SEVEN), SEVEN_TOLD],
        after: &[
            NO_TELL,
            SEVEN_REPLIED,
            Step::Carry(SEVEN),
            NO_TELL,
            SEVEN_REPLIED,
            Step::Carry(EIGHT),
            EIGHT_TOLD,
        ],
    },
    Case {
        name: "RTS",
        before: &[
            Step::Carry(SEVEN),
            SEVEN_TOLD,
            SEVEN_REPLIED,
            Step::Carry(SEVEN),
        ],
        after: &[NO_TELL, SEVEN_REPLIED, Step::Carry(EIGHT), EIGHT_TOLD],
    },
    // the timer is on, and the load told last was not the last of its message
    Case {
        name: "RTS and a part",
        before: &[
            Step::Carry(SEVEN),
            SEVEN_TOLD,
            SEVEN_REPLIED,
            Step::Carry(SEVEN),
        ],
        after: &[
            SEVEN_REPLIED,
            NO_MEET,
            Step::Part,
            Step::Break(Ok(())),
            Step::Meet(Ok(())),
        ],
    },
    // the sender has parted, and toggles are not compared
    Case {
        name: "NOK",
        before: &[Step::Carry(SEVEN), SEVEN_TOLD, SEVEN_REPLIED, Step::Part],
        after: &[
            NO_TELL,
            NO_REPLY,
            NO_MEET,
            Step::Break(Ok(())),
            Step::Meet(Ok(())),
            NO_MEET,
            Step::Carry(SEVEN),
            SEVEN_TOLD,
        ],
    },
];

// Frames of another load, which differ from those above in each bit.
const OFF: Step = Step::Carry(Frame {
    first: false,
    last: false,
    toggle: false,
    load: Reading { value: 9 },
});

const ON: Step = Step::Carry(Frame {
    first: true,
    last: true,
    toggle: true,
    load: Reading { value: 9 },
});

// The frames that arrive: none, one of either toggle, or both.
const STRAYS: [&[Step]; 4] = [&[], &[OFF], &[ON], &[ON, OFF]];

#[test]
fn a_frame_that_is_not_awaited_leaves_the_hut_as_it_was(rt: HostRuntime) {
    for strays in STRAYS {
        for case in &KEPT {
            follow_case(&rt, case, strays);
        }
    }
}
