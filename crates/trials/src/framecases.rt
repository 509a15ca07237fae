//! Frames at their limits.
use crate::crossings::opening;
use loads::{EmptyLoad, Frame, Load, Piece, Reading, answer_number as number_of, frame_comes_back};
use std::fmt::Debug;
use std::process::Abort;
use std::test::Fail;

// A frame answers with this number when it is written to so many octets, and leaves these.
fn writes<T: Load>(rt: &impl Abort, frame: &Frame<T>, room: usize, number: u8, after: &[u8]) {
    let mut octets = [0xEE; 20];
    let Some(buffer) = octets.get_mut(..room) else {
        panic!(rt; "there are no more octets");
    };
    let answer = number_of(&frame.write(buffer));
    assert_eq!(rt; (answer, &*buffer), (number, after), "in {room}");
}

// Octets, and the number that reading a frame from them answers.
type Numbers = (&'static [u8], u8);

// Reading a frame of this kind answers with these numbers.
fn reads<T: Load>(rt: &impl Abort, cases: &[Numbers]) {
    for (octets, number) in cases {
        assert_eq!(rt; number_of(&Frame::<T>::read(octets)), *number, "{octets:?}");
    }
}

// How many octets there are, the number that writing reading 7 answers, and the octets then.
const ROOMS: [(usize, u8, &[u8]); 4] = [
    (0, 14, &[]),
    (4, 14, &[0xEE, 0xEE, 0xEE, 0xEE]),
    (5, 0, &[0x81, 0, 0, 0, 7]),
    (6, 0, &[0x81, 0, 0, 0, 7, 0xEE]),
];

#[test]
fn a_frame_needs_its_room(rt: HostRuntime) {
    let frame = opening(Reading { value: 7 });
    for (room, number, after) in ROOMS {
        writes(&rt, &frame, room, number, after);
    }
}

#[test]
fn octets_of_a_frame_are_at_the_front(rt: HostRuntime) {
    let mut octets = [0; 32];
    octets[0] = 0x81;
    octets[4] = 7;
    assert_eq!(rt; opening(Reading { value: 7 }).octets(), octets);
}

// The header of an empty load and its three bits.
const BITS: [(u8, bool, bool, bool); 8] = [
    (0x00, false, false, false),
    (0x20, false, false, true),
    (0x40, false, true, false),
    (0x60, false, true, true),
    (0x80, true, false, false),
    (0xA0, true, false, true),
    (0xC0, true, true, false),
    (0xE0, true, true, true),
];

#[test]
fn each_bit_has_its_place(rt: HostRuntime) {
    for (header, first, last, toggle) in BITS {
        let load = EmptyLoad;
        let frame = Frame {
            first,
            last,
            toggle,
            load,
        };
        assert_eq!(rt; Frame::<EmptyLoad>::read(&[header]), Ok(frame));
        writes(&rt, &frame, 1, 0, &[header]);
    }
}

// What is not of the length of its kind is turned down by 14, and another kind by 15. No map has the zoom of the last piece.
const OF_READINGS: [Numbers; 7] = [
    (&[], 14),
    (&[0x81, 0, 0, 0], 14),
    (&[0x81, 0, 0, 0, 7], 0),
    (&[0x81, 0, 0, 0, 7, 0], 14),
    (&[0x82, 0, 0, 0, 7], 15),
    (&[0x80, 0, 0, 0, 7], 15),
    (&[0x9F, 0, 0, 0, 7], 15),
];

const OF_EMPTY_LOADS: [Numbers; 2] = [(&[0x60, 0], 14), (&[0x61], 15)];

const OF_PIECES: [Numbers; 3] = [(&[0x82, 21], 14), (&[0x81; 20], 15), (&[0x62; 20], 16)];

#[test]
fn a_frame_is_read_at_its_length_and_kind(rt: HostRuntime) {
    reads::<Reading>(&rt, &OF_READINGS);
    reads::<EmptyLoad>(&rt, &OF_EMPTY_LOADS);
    reads::<Piece>(&rt, &OF_PIECES);
}

// A frame that is written to so many octets answers with this number, and reads back where that is 0.
fn comes_back<T: Load + Debug + PartialEq>(rt: &impl Abort, load: T, room: usize, number: u8) {
    let frame = opening(load);
    let mut octets = [0xEE; 20];
    let Some(buffer) = octets.get_mut(..room) else {
        panic!(rt; "there are no more octets");
    };
    let answer = frame_comes_back(&frame, buffer);
    assert_eq!(rt; number_of(&answer), number);
    if let Ok(back) = answer {
        assert_eq!(rt; back, frame);
    }
}

#[test]
fn frames_come_back(rt: HostRuntime) -> Result<(), Fail> {
    comes_back(&rt, Reading { value: 7 }, 20, 0);
    let piece = Piece::new(20, 1, 2, 3, 4)?;
    comes_back(&rt, piece, 20, 0);
    comes_back(&rt, piece, 19, 14);
    comes_back(&rt, EmptyLoad, 1, 0);
    Ok(())
}
