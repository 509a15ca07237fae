//! Loads at their limits.
use loads::{EmptyLoad, Load, Piece, Reading, answer_number as number_of, load_comes_back};
use std::fmt::Debug;
use std::process::Abort;
use std::test::Fail;

// A kind has this number, and loads of so many octets.
fn is_kind<T: Load>(rt: &impl Abort, number: u8, octets: usize) {
    assert_eq!(rt; (T::kind_number(), T::octet_count()), (number, octets));
}

#[test]
fn kinds_have_their_numbers_and_lengths(rt: HostRuntime) {
    is_kind::<EmptyLoad>(&rt, 0, 0);
    is_kind::<Reading>(&rt, 1, 4);
    is_kind::<Piece>(&rt, 2, 19);
}

#[test]
fn numbers_and_lengths_are_told_by_pointer(rt: HostRuntime) {
    let numbers: [fn() -> u8; 3] = [
        EmptyLoad::kind_number,
        Reading::kind_number,
        Piece::kind_number,
    ];
    let lengths: [fn() -> usize; 3] = [
        EmptyLoad::octet_count,
        Reading::octet_count,
        Piece::octet_count,
    ];
    assert_eq!(rt; numbers.map(|number| number()), [0, 1, 2]);
    assert_eq!(rt; lengths.map(|length| length()), [0, 4, 19]);
}

// zoom, column, row, and what making the piece answers
const EDGES: [(u8, u32, u32, u8); 16] = [
    (0, 0, 0, 0),
    (0, 1, 0, 16),
    (0, 0, 1, 16),
    (1, 1, 1, 0),
    (1, 2, 1, 16),
    (1, 1, 2, 16),
    (19, 524_287, 524_287, 0),
    (19, 524_288, 0, 16),
    (20, 1_048_575, 0, 0),
    (20, 0, 1_048_575, 0),
    (20, 1_048_576, 0, 16),
    (20, 0, 1_048_576, 16),
    (21, 0, 0, 16),
    (31, 0, 0, 16),
    (32, 0, 0, 16),
    (255, 4_294_967_295, 4_294_967_295, 16),
];

#[test]
fn pieces_keep_to_the_map(rt: HostRuntime) {
    for (zoom, column, row, number) in EDGES {
        assert_eq!(rt;
            number_of(&Piece::new(zoom, column, row, 0, 0)),
            number,
            "{zoom}, {column}, {row}"
        );
    }
}

#[test]
fn a_piece_has_its_fields(rt: HostRuntime) -> Result<(), Fail> {
    let Piece {
        zoom,
        column,
        row,
        number,
        body,
    } = Piece::new(20, 1_048_575, 7, 65_535, 18_446_744_073_709_551_615)?;
    assert_eq!(rt;
        (zoom, column, row, number, body),
        (20, 1_048_575, 7, 65_535, 18_446_744_073_709_551_615)
    );
    Ok(())
}

// A load answers with this number when it is written to so many octets, and leaves these.
fn writes<T: Load>(rt: &impl Abort, load: &T, room: usize, number: u8, after: &[u8]) {
    let mut octets = [0xEE; 20];
    let Some(buffer) = octets.get_mut(..room) else {
        panic!(rt; "there are no more octets");
    };
    let answer = number_of(&load.write(buffer));
    assert_eq!(rt; (answer, &*buffer), (number, after), "in {room}");
}

// Reading a load of this kind answers with these numbers.
fn reads<T: Load>(rt: &impl Abort, cases: &[(&'static [u8], u8)]) {
    for (octets, number) in cases {
        assert_eq!(rt; number_of(&T::read(octets)), *number, "{octets:?}");
    }
}

// A reading, how many octets there are, the number that writing it answers, and the octets then.
const READINGS_WRITTEN: [(u32, usize, u8, &[u8]); 3] = [
    (0x0102_0304, 5, 0, &[1, 2, 3, 4, 0xEE]),
    (7, 3, 14, &[0xEE, 0xEE, 0xEE]),
    (7, 4, 0, &[0, 0, 0, 7]),
];

#[test]
fn a_reading_is_written_as_four_octets(rt: HostRuntime) {
    for (value, room, number, after) in READINGS_WRITTEN {
        writes(&rt, &Reading { value }, room, number, after);
    }
}

#[test]
fn a_reading_is_read_from_four_octets(rt: HostRuntime) {
    let value = 4_294_967_295;
    assert_eq!(rt; Reading::read(&[255; 4]), Ok(Reading { value }));
    reads::<Reading>(&rt, &[(&[1, 2, 3], 14), (&[1, 2, 3, 4, 5], 14)]);
}

// A piece in its nineteen octets, and another with an octet behind it.
const SPELLED: [u8; 19] = [
    20, 0, 0x0A, 0x0B, 0x0C, 0, 0x0D, 0x0E, 0x0F, 0x10, 0x11, 0x12, 0x13, 0x14, 0x15, 0x16, 0x17,
    0x18, 0x19,
];

const WITH_ROOM: [u8; 20] = [
    1, 0, 0, 0, 1, 0, 0, 0, 0, 0, 2, 0, 0, 0, 0, 0, 0, 0, 3, 0xEE,
];

#[test]
fn a_piece_is_nineteen_octets(rt: HostRuntime) -> Result<(), Fail> {
    let piece = Piece::new(20, 0x000A_0B0C, 0x000D_0E0F, 0x1011, 0x1213_1415_1617_1819)?;
    writes(&rt, &piece, 19, 0, &SPELLED);
    assert_eq!(rt; Piece::read(&SPELLED), Ok(piece));
    let piece = Piece::new(1, 1, 0, 2, 3)?;
    writes(&rt, &piece, 18, 14, &[0xEE; 18]);
    writes(&rt, &piece, 20, 0, &WITH_ROOM);
    Ok(())
}

// Octets, and what reading a piece from them answers. The first four are at zoom 1, at the edges of the map.
const PIECES_READ: [(&[u8], u8); 7] = [
    (
        &[1, 0, 0, 0, 1, 0, 0, 0, 1, 0, 0, 0, 0, 0, 0, 0, 0, 0, 0],
        0,
    ),
    (
        &[1, 0, 0, 0, 2, 0, 0, 0, 1, 0, 0, 0, 0, 0, 0, 0, 0, 0, 0],
        16,
    ),
    (
        &[1, 0, 0, 0, 1, 0, 0, 0, 2, 0, 0, 0, 0, 0, 0, 0, 0, 0, 0],
        16,
    ),
    (
        &[1, 0, 0, 0, 2, 0, 0, 0, 2, 0, 0, 0, 0, 0, 0, 0, 0, 0, 0],
        16,
    ),
    (&[20; 18], 14),
    (&[21; 19], 16),
    (&[21; 20], 14),
];

#[test]
fn a_piece_is_read_within_the_map(rt: HostRuntime) {
    reads::<Piece>(&rt, &PIECES_READ);
}

#[test]
fn an_empty_load_has_no_octets(rt: HostRuntime) {
    writes(&rt, &EmptyLoad, 1, 0, &[0xEE]);
    reads::<EmptyLoad>(&rt, &[(&[], 0), (&[0], 14)]);
}

// A load that is written to so many octets answers with this number, and reads back where that is 0.
fn comes_back<T: Load + Debug + PartialEq>(rt: &impl Abort, load: T, room: usize, number: u8) {
    let mut octets = [0xEE; 20];
    let Some(buffer) = octets.get_mut(..room) else {
        panic!(rt; "there are no more octets");
    };
    let answer = load_comes_back(&load, buffer);
    assert_eq!(rt; number_of(&answer), number);
    if let Ok(back) = answer {
        assert_eq!(rt; back, load);
    }
}

#[test]
fn loads_come_back(rt: HostRuntime) -> Result<(), Fail> {
    comes_back(&rt, Reading { value: 7 }, 19, 0);
    let piece = Piece::new(20, 1, 2, 3, 4)?;
    comes_back(&rt, piece, 19, 0);
    comes_back(&rt, piece, 18, 14);
    comes_back(&rt, EmptyLoad, 0, 0);
    Ok(())
}
