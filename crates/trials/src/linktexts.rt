//! The letters of calls, the words of answers, and the printed lines of a link.
use crate::linksteps::{
    ARRIVED, Answered, DONE, DONT_KNOW, LOST, NOT_DUE, NOT_OK, OK, ONE, ONLY_7, STILL,
};
use link::{Answer, Call, Event, LinkRefusal, Position, Word};
use linktext::{call_line, event_lines, outcome_line, push_call};
use loads::{EmptyLoad, Load, Piece, Reading};
use std::alloc::Global;
use std::process::Abort;
use std::test::Fail;

const LETTERS: [(Call, char); 12] = [
    (ONE, 'Q'),
    (Call::Send, 'S'),
    (Call::Carry, 'C'),
    (Call::Tell, 'T'),
    (Call::Reply, 'R'),
    (Call::Return, 'B'),
    (Call::Retry, 'Y'),
    (Call::Abandon, 'A'),
    (Call::Confirm, 'F'),
    (Call::Part, 'P'),
    (Call::Break, 'N'),
    (Call::Meet, 'M'),
];

#[test]
fn calls_have_letters(rt: HostRuntime) {
    for (call, letter) in LETTERS {
        assert_eq!(rt; call.letter(), letter);
    }
}

const FIRST_10: Answered<Reading> = Ok(Answer::Told(Position::First, Reading { value: 10 }));

const HIGHEST: Answered<Reading> = Ok(Answer::Told(
    Position::Incomplete,
    Reading {
        value: 4_294_967_295,
    },
));

// A call, its answer, and their line.
type Line<T> = (Call, Answered<T>, &'static str);

const LINES: [Line<Reading>; 14] = [
    (ONE, DONE, "Q 0"),
    (Call::Meet, DONE, "M 0"),
    (Call::Carry, STILL, "C 0 STILL"),
    (Call::Carry, ARRIVED, "C 0 ARRIVED"),
    (Call::Return, LOST, "B 0 LOST"),
    (Call::Tell, ONLY_7, "T 0 OK 00000007"),
    (Call::Tell, FIRST_10, "T 0 FIRST 0000000A"),
    (Call::Tell, HIGHEST, "T 0 INCOMPLETE FFFFFFFF"),
    (Call::Confirm, OK, "F 0 OK"),
    (Call::Confirm, NOT_OK, "F 0 NOT_OK"),
    (Call::Confirm, DONT_KNOW, "F 0 DONT_KNOW"),
    (Call::Tell, NOT_DUE, "T 8"),
    (Call::Carry, Err(LinkRefusal::NothingWaits), "C 10"),
    (Call::Break, Err(LinkRefusal::NotJoined), "N 4"),
];

// Calls with their answers have these lines.
fn have_lines<T: Load>(rt: &impl Abort, heap: Global, lines: &[Line<T>]) -> Result<(), Fail> {
    for (call, answer, line) in lines {
        let event = Event {
            call: *call,
            answer: *answer,
        };
        assert_eq!(rt; call_line(heap, &event)?.as_str(), *line);
    }
    Ok(())
}

#[test]
fn a_line_shows_what_a_call_answers(rt: HostRuntime) -> Result<(), Fail> {
    have_lines(&rt, rt.alloc(), &LINES)
}

#[test]
fn a_line_shows_the_octets_of_any_load(rt: HostRuntime) -> Result<(), Fail> {
    let piece = Piece::new(20, 1_048_575, 349_525, 3, 0x0123_4567_89AB_CDEF)?;
    let told = Ok(Answer::Told(Position::First, piece));
    let line = "T 0 FIRST 14000FFFFF0005555500030123456789ABCDEF";
    have_lines(&rt, rt.alloc(), &[(Call::Tell, told, line)])?;
    let told = Ok(Answer::Told(Position::Ok, EmptyLoad));
    have_lines(&rt, rt.alloc(), &[(Call::Tell, told, "T 0 OK ")])
}

const ASKED: Event<Reading> = Event {
    call: ONE,
    answer: DONE,
};

const TOLD: Event<Reading> = Event {
    call: Call::Tell,
    answer: FIRST_10,
};

// A text, the event that is added behind it, and the text then.
const ADDED: [(&str, Event<Reading>, &str); 3] = [
    ("", ASKED, "Q 0"),
    ("N 4\n", ASKED, "N 4\nQ 0"),
    ("Q 0", TOLD, "Q 0T 0 FIRST 0000000A"),
];

#[test]
fn a_call_is_added_behind_a_text(rt: HostRuntime) -> Result<(), Fail> {
    for (before, event, after) in ADDED {
        let mut text = String::new(rt.alloc());
        text.push_str(before)?;
        push_call(&mut text, &event)?;
        assert_eq!(rt; text.as_str(), after);
    }
    Ok(())
}

// Events, and their lines.
const EVENT_LINES: [(&[Event<Reading>], &str); 3] = [
    (&[], ""),
    (&[TOLD], "T 0 FIRST 0000000A\n"),
    (&[ASKED, TOLD], "Q 0\nT 0 FIRST 0000000A\n"),
];

#[test]
fn each_event_has_a_line(rt: HostRuntime) -> Result<(), Fail> {
    for (events, lines) in EVENT_LINES {
        assert_eq!(rt; event_lines(rt.alloc(), events)?.as_str(), lines);
    }
    Ok(())
}

#[test]
fn an_outcome_has_its_words(rt: HostRuntime) -> Result<(), Fail> {
    let line = outcome_line(rt.alloc(), Word::DontKnow, 4_096)?;
    assert_eq!(rt; line.as_str(), "outcome DONT_KNOW 4096");
    Ok(())
}
