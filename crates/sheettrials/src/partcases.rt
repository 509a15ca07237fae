//! What a sheet gives: its parts, and what a run takes from them.
use crate::plans::{NOTHING, PIECES, Plan, pieces_of, readings_of};
use channels::Mark;
use link::Call;
use loads::{Load, Piece, Reading};
use sheet::{Part, Sheet, Way};
use std::alloc::{AllocError, Global};
use std::fmt::Debug;
use std::process::Abort;
use std::test::Fail;

// Two readings, marks of both lists, and two calls.
const READING_SHEET: Plan<'static> = Plan {
    book: &[0, 0, 0, 7, 0, 1, 0, 2],
    to_hut: &[0, 2],
    back: &[1],
    calls: &[b'Q', 1, 2, 3, 4, b'M'],
    repeats: 3,
    ..NOTHING
};

// 0x0102 is 258, 0x0304 is 772, and 0x0001_0002 is 65,538.
const READING_PARTS: [Part<'static, Reading>; 7] = [
    Part::BookRecord {
        place: 0,
        octets: &[0, 0, 0, 7],
        load: Reading { value: 7 },
    },
    Part::BookRecord {
        place: 4,
        octets: &[0, 1, 0, 2],
        load: Reading { value: 65_538 },
    },
    Part::Mark {
        place: 8,
        octets: &[0],
        way: Way::ToHut,
        mark: Mark::Pass,
    },
    Part::Mark {
        place: 9,
        octets: &[2],
        way: Way::ToHut,
        mark: Mark::Delay,
    },
    Part::Mark {
        place: 10,
        octets: &[1],
        way: Way::Back,
        mark: Mark::Lose,
    },
    Part::Call {
        place: 11,
        octets: &[b'Q', 1, 2, 3, 4],
        call: Call::Request {
            start: 258,
            count: 772,
        },
    },
    Part::Call {
        place: 16,
        octets: b"M",
        call: Call::Meet,
    },
];

#[test]
fn a_sheet_of_readings_has_its_parts(rt: HostRuntime) -> Result<(), Fail> {
    let octets = READING_SHEET.octets(rt.alloc())?;
    let sheet = readings_of(rt.alloc(), &octets).ok_or("no readings")?;
    assert_eq!(rt; sheet.parts(), READING_PARTS.as_slice());
    assert!(rt; pieces_of(rt.alloc(), &octets).is_none());
    Ok(())
}

// What a sheet gives a run, without its loads, must be this.
fn assert_run<T: Load>(
    rt: &impl Abort,
    sheet: &Sheet<'_, T>,
    repeats: u8,
    loads: usize,
    marks: (&[Mark], &[Mark]),
    calls: &[Call],
) {
    let (to_hut, back) = marks;
    assert_eq!(rt; sheet.repeats(), repeats);
    assert_eq!(rt; sheet.book().len(), loads);
    assert_eq!(rt; sheet.to_hut(), to_hut);
    assert_eq!(rt; sheet.back(), back);
    assert_eq!(rt; sheet.calls(), calls);
}

// A place of a sheet's book must have this load.
fn assert_load<T: Load + Debug + PartialEq>(
    rt: &impl Abort,
    sheet: &Sheet<'_, T>,
    place: usize,
    load: Option<T>,
) {
    assert_eq!(rt; sheet.book().load(place), load, "at {place}");
}

#[test]
fn a_sheet_of_readings_gives_a_run(rt: HostRuntime) -> Result<(), Fail> {
    let octets = READING_SHEET.octets(rt.alloc())?;
    let sheet = readings_of(rt.alloc(), &octets).ok_or("no readings")?;
    let request = Call::Request {
        start: 258,
        count: 772,
    };
    let marks: (&[Mark], &[Mark]) = (&[Mark::Pass, Mark::Delay], &[Mark::Lose]);
    assert_run(&rt, &sheet, 3, 2, marks, &[request, Call::Meet]);
    assert_load(&rt, &sheet, 0, Some(Reading { value: 7 }));
    assert_load(&rt, &sheet, 1, Some(Reading { value: 65_538 }));
    assert_load(&rt, &sheet, 2, None);
    Ok(())
}

// The places of a sheet's parts, and their octets one after another.
fn laid_out<T>(heap: Global, sheet: &Sheet<'_, T>) -> Result<(Vec<usize>, Vec<u8>), AllocError> {
    let mut places = Vec::new(heap);
    let mut covered = Vec::new(heap);
    for part in sheet.parts() {
        places.push(part.place())?;
        covered.extend_from_slice(part.octets())?;
    }
    Ok((places, covered))
}

#[test]
fn parts_follow_one_another(rt: HostRuntime) -> Result<(), Fail> {
    let octets = READING_SHEET.octets(rt.alloc())?;
    let sheet = readings_of(rt.alloc(), &octets).ok_or("no readings")?;
    let (places, covered) = laid_out(rt.alloc(), &sheet)?;
    assert_eq!(rt; places.as_slice(), [0, 4, 8, 9, 10, 11, 16].as_slice());
    assert_eq!(rt;
        covered.as_slice(),
        [0, 0, 0, 7, 0, 1, 0, 2, 0, 2, 1, b'Q', 1, 2, 3, 4, b'M'].as_slice()
    );
    Ok(())
}

// The piece of zoom 20, column 1,048,575, row 349,525, number 3 and body 0x0123_4567_89AB_CDEF.
const PIECE_OCTETS: [u8; 19] = [
    20, 0, 0x0F, 0xFF, 0xFF, 0, 0x05, 0x55, 0x55, 0, 3, 0x01, 0x23, 0x45, 0x67, 0x89, 0xAB, 0xCD,
    0xEF,
];

// A sheet of one piece, a mark for L and a call.
const PIECE_SHEET: Plan<'static> = Plan {
    book: &PIECE_OCTETS,
    back: &[2],
    calls: b"R",
    kind: PIECES,
    repeats: 10,
    ..NOTHING
};

// What a part means, without its octets: the borrow checker takes no array of parts whose loads have a ghost field.
#[derive(Clone, Copy, PartialEq, Eq)]
enum Meaning<T> {
    Load(T),
    Mark(Way, Mark),
    Call(Call),
}

fn meaning_of<T: Copy>(part: &Part<'_, T>) -> Meaning<T> {
    match part {
        Part::BookRecord { load, .. } => Meaning::Load(*load),
        Part::Mark { way, mark, .. } => Meaning::Mark(*way, *mark),
        Part::Call { call, .. } => Meaning::Call(*call),
    }
}

// Whether a part has this place, these octets and this meaning.
fn is_part<T: Copy + PartialEq>(
    part: &Part<'_, T>,
    place: usize,
    octets: &[u8],
    meaning: &Meaning<T>,
) -> bool {
    part.place() == place && part.octets() == octets && meaning_of(part) == *meaning
}

// The sheet must have these parts: place, octets and meaning.
fn assert_parts<T: Copy + PartialEq>(
    rt: &impl Abort,
    sheet: &Sheet<'_, T>,
    expected: &[(usize, &[u8], Meaning<T>)],
) {
    assert_eq!(rt; sheet.parts().len(), expected.len());
    for (part, (place, octets, meaning)) in sheet.parts().iter().zip(expected) {
        assert!(rt; is_part(part, *place, octets, meaning), "at {place}");
    }
}

#[test]
fn a_sheet_of_pieces_has_its_parts(rt: HostRuntime) -> Result<(), Fail> {
    let octets = PIECE_SHEET.octets(rt.alloc())?;
    let sheet = pieces_of(rt.alloc(), &octets).ok_or("no pieces")?;
    let load = Piece::new(20, 1_048_575, 349_525, 3, 0x0123_4567_89AB_CDEF)?;
    assert_parts(
        &rt,
        &sheet,
        &[
            (0, &PIECE_OCTETS, Meaning::Load(load)),
            (19, &[2], Meaning::Mark(Way::Back, Mark::Delay)),
            (20, b"R", Meaning::Call(Call::Reply)),
        ],
    );
    assert!(rt; readings_of(rt.alloc(), &octets).is_none());
    Ok(())
}

#[test]
fn a_sheet_of_pieces_gives_a_run(rt: HostRuntime) -> Result<(), Fail> {
    let octets = PIECE_SHEET.octets(rt.alloc())?;
    let sheet = pieces_of(rt.alloc(), &octets).ok_or("no pieces")?;
    let load = Piece::new(20, 1_048_575, 349_525, 3, 0x0123_4567_89AB_CDEF)?;
    assert_run(&rt, &sheet, 10, 1, (&[], &[Mark::Delay]), &[Call::Reply]);
    assert_load(&rt, &sheet, 0, Some(load));
    Ok(())
}

#[test]
fn each_letter_is_its_call(rt: HostRuntime) -> Result<(), Fail> {
    let octets = Plan {
        calls: b"SCTRBYAFPNMQ\x80\x00\x00\xFF",
        ..NOTHING
    }
    .octets(rt.alloc())?;
    let sheet = readings_of(rt.alloc(), &octets).ok_or("no readings")?;
    let calls = [
        Call::Send,
        Call::Carry,
        Call::Tell,
        Call::Reply,
        Call::Return,
        Call::Retry,
        Call::Abandon,
        Call::Confirm,
        Call::Part,
        Call::Break,
        Call::Meet,
        Call::Request {
            start: 32_768,
            count: 255,
        },
    ];
    assert_eq!(rt; sheet.calls(), calls.as_slice());
    Ok(())
}

#[test]
fn an_empty_sheet_has_no_parts(rt: HostRuntime) -> Result<(), Fail> {
    let octets = NOTHING.octets(rt.alloc())?;
    let sheet = readings_of(rt.alloc(), &octets).ok_or("no readings")?;
    assert_run(&rt, &sheet, 0, 0, (&[], &[]), &[]);
    assert_eq!(rt; sheet.parts().len(), 0);
    Ok(())
}
