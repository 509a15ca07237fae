//! Runs of a link: one after another, with a short log, and on a link that is not joined.
use crate::linksteps::Step::{Join, Make, Outcome};
use crate::linksteps::{
    ARRIVED, Answered, DONE, FIRST_7, LAST_8, NOT_DUE, OK, Step, TWO, UNUSED, follow_link, readings,
};
use channels::{Store, Wire};
use link::{Call, Event, Link, LinkRefusal, Word};
use loads::{Book, EmptyLoad, Reading};
use std::alloc::Global;
use std::process::Abort;
use std::test::Fail;

// A run, with the log before and after it, and what is done then.
struct Run {
    calls: &'static [Call],
    before: &'static [Event<Reading>],
    answer: Result<(), LinkRefusal>,
    after: &'static [Event<Reading>],
    then: &'static [Step<Reading>],
}

// A link over a book of two readings, with what is done before the first run.
struct Case {
    name: &'static str,
    start: &'static [Step<Reading>],
    runs: &'static [Run],
}

const NOT_JOINED: Answered<Reading> = Err(LinkRefusal::NotJoined);

// A request of no load.
const NONE: Call = Call::Request { start: 0, count: 0 };

// What the first run of the first case writes, in a log with room for two events more.
const FIRST_LOG: [Event<Reading>; 6] = [
    Event {
        call: TWO,
        answer: DONE,
    },
    Event {
        call: Call::Send,
        answer: DONE,
    },
    Event {
        call: Call::Carry,
        answer: ARRIVED,
    },
    Event {
        call: Call::Tell,
        answer: FIRST_7,
    },
    UNUSED,
    UNUSED,
];

const CASES: [Case; 3] = [
    Case {
        name: "a run goes on where another ended",
        start: &[Join(0, Ok(()))],
        runs: &[
            Run {
                calls: &[TWO, Call::Send, Call::Carry, Call::Tell],
                before: &[UNUSED, UNUSED, UNUSED, UNUSED, UNUSED, UNUSED],
                answer: Ok(()),
                after: &FIRST_LOG,
                then: &[],
            },
            Run {
                calls: &[
                    Call::Tell,
                    Call::Reply,
                    Call::Return,
                    Call::Send,
                    Call::Carry,
                    Call::Tell,
                ],
                before: &FIRST_LOG,
                answer: Ok(()),
                after: &[
                    Event {
                        call: Call::Tell,
                        answer: NOT_DUE,
                    },
                    Event {
                        call: Call::Reply,
                        answer: DONE,
                    },
                    Event {
                        call: Call::Return,
                        answer: ARRIVED,
                    },
                    Event {
                        call: Call::Send,
                        answer: DONE,
                    },
                    Event {
                        call: Call::Carry,
                        answer: ARRIVED,
                    },
                    Event {
                        call: Call::Tell,
                        answer: LAST_8,
                    },
                ],
                then: &[
                    Make(Call::Reply, DONE),
                    Make(Call::Return, ARRIVED),
                    Make(Call::Confirm, OK),
                    Outcome(Ok((Word::Ok, 2))),
                ],
            },
        ],
    },
    Case {
        name: "a short log stays and no call is made",
        start: &[Join(0, Ok(()))],
        runs: &[
            Run {
                calls: &[TWO, Call::Send],
                before: &[UNUSED],
                answer: Err(LinkRefusal::ShortLog),
                after: &[UNUSED],
                then: &[Outcome(Err(LinkRefusal::NoneConfirmed))],
            },
            Run {
                calls: &[],
                before: &[],
                answer: Ok(()),
                after: &[],
                then: &[],
            },
            Run {
                calls: &[Call::Send],
                before: &[UNUSED],
                answer: Ok(()),
                after: &[Event {
                    call: Call::Send,
                    answer: NOT_DUE,
                }],
                then: &[],
            },
        ],
    },
    Case {
        name: "a run of a link that is not joined logs refusals",
        start: &[],
        runs: &[Run {
            calls: &[NONE, Call::Carry],
            before: &[UNUSED, UNUSED, UNUSED],
            answer: Ok(()),
            after: &[
                Event {
                    call: NONE,
                    answer: NOT_JOINED,
                },
                Event {
                    call: Call::Carry,
                    answer: NOT_JOINED,
                },
                UNUSED,
            ],
            then: &[],
        }],
    },
];

type Plain = Link<Reading, Wire<Reading>, Store<EmptyLoad>>;

// Makes a run, and gives its answer and the log after it.
fn make_run(
    heap: Global,
    link: &mut Plain,
    book: &Book<Reading>,
    run: &Run,
) -> Result<(Result<(), LinkRefusal>, Vec<Event<Reading>>), Fail> {
    let mut log = run.before.to_vec(heap)?;
    let answer = link.run(book, run.calls, &mut log);
    Ok((answer, log))
}

// Makes the runs of a case in order.
fn make_runs(rt: &impl Abort, heap: Global, case: &Case) -> Result<(), Fail> {
    let book = readings(heap, 2)?;
    let mut link = Link::new(Wire::new(), Store::new());
    let name = case.name;
    follow_link(rt, &mut link, &book, name, case.start);
    for run in case.runs {
        let (answer, log) = make_run(heap, &mut link, &book, run)?;
        assert_eq!(rt; answer, run.answer, "{name}");
        assert_eq!(rt; log.as_slice(), run.after, "{name}");
        follow_link(rt, &mut link, &book, name, run.then);
    }
    Ok(())
}

#[test]
fn runs_write_their_logs(rt: HostRuntime) -> Result<(), Fail> {
    for case in &CASES {
        make_runs(&rt, rt.alloc(), case)?;
    }
    Ok(())
}
