//! The number of each refusal, and its text.
use link::{LinkRefusal, TimerRefusal};
use loads::{Fault, Refusal};
use std::alloc::Global;
use std::fmt::Display;
use std::process::Abort;
use std::test::Fail;

// Each refusal has this number and this text.
fn have_texts<E: Refusal + Display>(
    rt: &impl Abort,
    heap: Global,
    rows: &[(E, u8, &'static str)],
) -> Result<(), Fail> {
    for (refusal, number, line) in rows {
        let text = format!(in heap; "{refusal}")?;
        assert_eq!(rt; (refusal.number(), text.as_str()), (*number, *line));
    }
    Ok(())
}

const FAULTS: [(Fault, u8, &str); 4] = [
    (Fault::WrongLength, 14, "refused 14"),
    (Fault::WrongKind, 15, "refused 15"),
    (Fault::OutsideRanges, 16, "refused 16"),
    (Fault::NoMemory, 255, "refused 255"),
];

#[test]
fn faults_have_their_numbers_and_texts(rt: HostRuntime) -> Result<(), Fail> {
    have_texts(&rt, rt.alloc(), &FAULTS)
}

const OF_LINKS: [(LinkRefusal, u8, &str); 14] = [
    (LinkRefusal::AlreadyJoined, 1, "refused 1"),
    (LinkRefusal::TooManyRepeats, 2, "refused 2"),
    (LinkRefusal::ChannelHolds, 3, "refused 3"),
    (LinkRefusal::NotJoined, 4, "refused 4"),
    (LinkRefusal::MessageOpen, 5, "refused 5"),
    (LinkRefusal::BadCount, 6, "refused 6"),
    (LinkRefusal::BeyondBook, 7, "refused 7"),
    (LinkRefusal::NotDue, 8, "refused 8"),
    (LinkRefusal::NoLoad, 9, "refused 9"),
    (LinkRefusal::NothingWaits, 10, "refused 10"),
    (LinkRefusal::ChannelFull, 11, "refused 11"),
    (LinkRefusal::StillOpen, 12, "refused 12"),
    (LinkRefusal::NoneConfirmed, 13, "refused 13"),
    (LinkRefusal::ShortLog, 23, "refused 23"),
];

#[test]
fn refusals_of_a_link_have_their_numbers_and_texts(rt: HostRuntime) -> Result<(), Fail> {
    have_texts(&rt, rt.alloc(), &OF_LINKS)
}

const OF_TIMERS: [(TimerRefusal, u8, &str); 3] = [
    (TimerRefusal::TooManyRepeats, 2, "refused 2"),
    (TimerRefusal::ShortReplyTimer, 24, "refused 24"),
    (TimerRefusal::ShortHutTimer, 25, "refused 25"),
];

#[test]
fn refusals_of_timers_have_their_numbers_and_texts(rt: HostRuntime) -> Result<(), Fail> {
    have_texts(&rt, rt.alloc(), &OF_TIMERS)
}
