//! Sheets with two faults: the smaller number is given, and of one number the first place.
use crate::plans::{NOTHING, PIECES, Plan, READINGS, plan_turned_down, turned_down, with_trailer};
use std::test::Fail;

#[test]
fn a_wrong_size_comes_before_all(rt: HostRuntime) -> Result<(), Fail> {
    assert_eq!(rt; turned_down(rt.alloc(), &[255; 17])?, Some((17, 17)));
    let octets = [255].repeat(rt.alloc(), 16_385)?;
    assert_eq!(rt; turned_down(rt.alloc(), &octets)?, Some((17, 16_385)));
    // one octet fewer has the wrong kind, behind 16,366 octets and the distances
    assert_eq!(rt; turned_down(rt.alloc(), &octets[1..])?, Some((18, 16_382)));
    Ok(())
}

// front, distances, settings, and what they are turned down for
const TRAILERS: [(&[u8], [usize; 4], [u8; 2], (u8, usize)); 9] = [
    // kind and repeats
    (&[], [0, 0, 0, 0], [0, 11], (18, 16)),
    (&[9; 5], [5, 1, 0, 0], [3, 255], (18, 21)),
    // either, and the distances
    (&[0; 4], [5, 0, 0, 0], [0, 0], (18, 20)),
    (&[0; 4], [5, 0, 0, 0], [1, 11], (18, 21)),
    (&[0; 4], [4, 0, 0, 1], [2, 11], (18, 21)),
    // the distances, and a record, a mark or a letter
    (&[0; 3], [3, 4, 0, 0], [1, 0], (19, 3)),
    (&[0; 3], [4, 0, 0, 0], [1, 0], (19, 3)),
    (&[3; 2], [2, 2, 0, 1], [1, 0], (19, 2)),
    (b"x", [2, 1, 1, 1], [1, 0], (19, 1)),
];

#[test]
fn a_bad_trailer_comes_before_bad_lists(rt: HostRuntime) -> Result<(), Fail> {
    for (front, distances, settings, fault) in TRAILERS {
        let sheet = with_trailer(rt.alloc(), front, distances, settings)?;
        assert_eq!(rt;
            turned_down(rt.alloc(), &sheet)?,
            Some(fault),
            "at {front:?} {distances:?}"
        );
    }
    Ok(())
}

// book, kind, marks of K and of L, calls, and what they are turned down for
const LISTS: [(&[u8], u8, &[u8], &[u8], &[u8], (u8, usize)); 11] = [
    // two records
    (&[21; 38], PIECES, &[], &[], b"", (20, 0)),
    // a record, and a mark or a letter
    (&[0; 3], READINGS, &[3], &[], b"", (20, 0)),
    (&[0; 5], READINGS, &[0; 65], &[3], b"", (20, 4)),
    (&[0; 20], PIECES, &[], &[3], b"", (20, 19)),
    (&[0; 2], READINGS, &[], &[], b"x", (20, 0)),
    // two marks
    (&[0; 4], READINGS, &[0, 3, 3], &[], b"", (21, 5)),
    (&[0; 4], READINGS, &[0], &[3, 4], b"", (21, 5)),
    (&[0; 4], READINGS, &[0, 3], &[3], b"", (21, 5)),
    // a mark and a letter
    (&[0; 4], READINGS, &[3], &[], b"x", (21, 4)),
    (&[0; 4], READINGS, &[0], &[0, 3], b"Q", (21, 6)),
    // two letters
    (&[0; 4], READINGS, &[0], &[0], b"MxQ", (22, 7)),
];

#[test]
fn the_lists_are_read_in_order(rt: HostRuntime) -> Result<(), Fail> {
    for (book, kind, to_hut, back, calls, fault) in LISTS {
        let plan = Plan {
            book,
            to_hut,
            back,
            calls,
            kind,
            repeats: 0,
        };
        assert_eq!(rt;
            plan_turned_down(rt.alloc(), &plan)?,
            Some(fault),
            "at {plan:?}"
        );
    }
    Ok(())
}

// where of 66 marks one is 3, and which of them is turned down
const BAD_MARKS: [(usize, usize); 5] = [(0, 0), (62, 62), (63, 63), (64, 64), (65, 64)];

#[test]
fn a_bad_mark_and_a_65th(rt: HostRuntime) -> Result<(), Fail> {
    for (place, first) in BAD_MARKS {
        let mut marks = [0; 66];
        if let Some(mark) = marks.get_mut(place) {
            *mark = 3;
        }
        let of_k = Plan {
            to_hut: &marks,
            back: &[3],
            ..NOTHING
        };
        assert_eq!(rt;
            plan_turned_down(rt.alloc(), &of_k)?,
            Some((21, first)),
            "at {place}"
        );
        let of_l = Plan {
            back: &marks,
            calls: b"x",
            ..NOTHING
        };
        assert_eq!(rt;
            plan_turned_down(rt.alloc(), &of_l)?,
            Some((21, first)),
            "at {place}"
        );
    }
    Ok(())
}

// how many good calls stand before an unknown letter and two more calls, and where the sheet is turned down
const BAD_CALLS: [(usize, usize); 5] = [
    (0, 0),
    (1_022, 1_022),
    (1_023, 1_023),
    (1_024, 1_024),
    (1_025, 1_024),
];

#[test]
fn an_unknown_letter_and_a_1025th_call(rt: HostRuntime) -> Result<(), Fail> {
    for (count, place) in BAD_CALLS {
        let good = b"M".repeat(rt.alloc(), count)?;
        let calls = [good.as_slice(), b"xMM"].concat(rt.alloc())?;
        let plan = Plan {
            calls: &calls,
            ..NOTHING
        };
        assert_eq!(rt;
            plan_turned_down(rt.alloc(), &plan)?,
            Some((22, place)),
            "at {count}"
        );
    }
    Ok(())
}
