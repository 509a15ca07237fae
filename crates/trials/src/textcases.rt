//! The text of frames and of what became of them.
use channel::{Full, Poll, Used};
use frametext::{AnyFrame, frame_line, frame_lines, hexadecimal, push_hexadecimal, use_line};
use loads::{EmptyLoad, Fault, Frame, Load, Reading};
use std::alloc::Global;
use std::process::Abort;
use std::test::Fail;

const HEXADECIMAL: [(&[u8], &str); 2] = [
    (&[], ""),
    (
        &[0x00, 0x09, 0x0A, 0x0F, 0x10, 0x9F, 0xA0, 0xFF],
        "00090A0F109FA0FF",
    ),
];

#[test]
fn octets_in_hexadecimal(rt: HostRuntime) -> Result<(), Fail> {
    for (octets, text) in HEXADECIMAL {
        assert_eq!(rt; hexadecimal(rt.alloc(), octets)?.as_str(), text);
    }
    Ok(())
}

// A text, the octets that are added behind it, and the text then.
const ADDED: [(&str, &[u8], &str); 3] = [
    ("", &[0x0A], "0A"),
    ("put ", &[], "put "),
    ("put 8", &[0x10, 0xFF], "put 810FF"),
];

#[test]
fn octets_are_added_behind_a_text(rt: HostRuntime) -> Result<(), Fail> {
    for (before, octets, after) in ADDED {
        let mut text = String::new(rt.alloc());
        text.push_str(before)?;
        push_hexadecimal(&mut text, octets)?;
        assert_eq!(rt; text.as_str(), after);
    }
    Ok(())
}

// Octets, and the line that says what they spell, or which number turns them down.
const LINES: [(&[u8], &str); 6] = [
    (
        &[0x60],
        "input 60: first off, last on, toggle on, empty load",
    ),
    (
        &[0xA1, 0xFF, 0xFF, 0xFF, 0xFF],
        "input A1FFFFFFFF: first on, last off, toggle on, reading 4294967295",
    ),
    (&[], "input : refused 14"),
    (&[0x01], "input 01: refused 14"),
    (&[0x03], "input 03: refused 15"),
    (&[0xFF, 0xFF], "input FFFF: refused 15"),
];

#[test]
fn lines_say_what_octets_spell(rt: HostRuntime) -> Result<(), Fail> {
    for (octets, line) in LINES {
        assert_eq!(rt; frame_line(rt.alloc(), "input", octets)?.as_str(), line);
    }
    Ok(())
}

// Octets of a kind that no load has, as many as the longest frame has, and one more; and what turns them down.
const NO_FRAMES: [(&[u8], Fault); 2] = [
    (&[0x1F; 32], Fault::WrongKind),
    (&[0x1F; 33], Fault::WrongLength),
];

#[test]
fn too_many_octets_go_before_the_kind(rt: HostRuntime) -> Result<(), Fail> {
    for (octets, fault) in NO_FRAMES {
        assert!(rt; AnyFrame::read(octets).err() == Some(fault));
    }
    Ok(())
}

#[test]
fn a_frame_has_its_text(rt: HostRuntime) -> Result<(), Fail> {
    let frame = AnyFrame::read(&[0xC1, 0, 0, 4, 0xD2])?;
    let text = format!(in rt.alloc(); "{frame}")?;
    assert_eq!(rt;
        text.as_str(),
        "first on, last on, toggle off, reading 1234"
    );
    Ok(())
}

const EMPTY: Frame<EmptyLoad> = Frame {
    first: false,
    last: false,
    toggle: false,
    load: EmptyLoad,
};

const SEVEN: Frame<Reading> = Frame {
    first: true,
    last: false,
    toggle: false,
    load: Reading { value: 7 },
};

// The lines of a frame in which nothing is changed.
const EMPTY_AS_IT_IS: &str = "wrote 00: first off, last off, toggle off, empty load\n\
    damaged 00: first off, last off, toggle off, empty load";

const SEVEN_AS_IT_IS: &str = "wrote 8100000007: first on, last off, toggle off, reading 7\n\
    damaged 8100000007: first on, last off, toggle off, reading 7";

// A place, the octet that is put there, and the lines of the frame.
type Change = (usize, u8, &'static str);

// Past the octets that a frame has, and past the most that any frame has, nothing is changed.
const OF_EMPTY: [Change; 5] = [
    (
        0,
        0xFF,
        "wrote 00: first off, last off, toggle off, empty load\ndamaged FF: refused 15",
    ),
    (1, 0xFF, EMPTY_AS_IT_IS),
    (31, 0xFF, EMPTY_AS_IT_IS),
    (33, 0xFF, EMPTY_AS_IT_IS),
    (255, 0xFF, EMPTY_AS_IT_IS),
];

const OF_SEVEN: [Change; 8] = [
    (
        0,
        0xFF,
        "wrote 8100000007: first on, last off, toggle off, reading 7\n\
         damaged FF00000007: refused 15",
    ),
    (
        4,
        0xFF,
        "wrote 8100000007: first on, last off, toggle off, reading 7\n\
         damaged 81000000FF: first on, last off, toggle off, reading 255",
    ),
    (5, 0xFF, SEVEN_AS_IT_IS),
    (31, 0xFF, SEVEN_AS_IT_IS),
    (32, 0xFF, SEVEN_AS_IT_IS),
    (33, 0xFF, SEVEN_AS_IT_IS),
    (255, 0xFF, SEVEN_AS_IT_IS),
    (18_446_744_073_709_551_615, 0xFF, SEVEN_AS_IT_IS),
];

// Each change of a frame has its lines.
fn change<T: Load>(
    rt: &impl Abort,
    heap: Global,
    frame: &Frame<T>,
    changes: &[Change],
) -> Result<(), Fail> {
    for (place, octet, lines) in changes {
        let text = frame_lines(heap, frame, *place, *octet)?;
        assert_eq!(rt; text.as_str(), *lines, "at {place}");
    }
    Ok(())
}

#[test]
fn a_change_past_the_end_changes_nothing(rt: HostRuntime) -> Result<(), Fail> {
    change(&rt, rt.alloc(), &EMPTY, &OF_EMPTY)?;
    change(&rt, rt.alloc(), &SEVEN, &OF_SEVEN)
}

const USES: [(Used<Reading>, &str); 6] = [
    (Used::Put(SEVEN, Ok(())), "put 8100000007: 0"),
    (Used::Put(SEVEN, Err(Full)), "put 8100000007: 11"),
    (Used::Poll(Poll::Empty), "poll: EMPTY"),
    (Used::Poll(Poll::Still), "poll: STILL"),
    (Used::Poll(Poll::Arrived(SEVEN)), "poll: ARRIVED 8100000007"),
    (Used::Poll(Poll::Lost), "poll: LOST"),
];

#[test]
fn uses_have_their_lines(rt: HostRuntime) -> Result<(), Fail> {
    for (used, line) in USES {
        assert_eq!(rt; use_line(rt.alloc(), &used)?.as_str(), line);
    }
    Ok(())
}
