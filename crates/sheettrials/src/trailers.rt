//! The trailer: kinds, repeats and distances.
use crate::plans::{NOTHING, Plan, READINGS, plan_turned_down, turned_down, with_trailer};
use std::test::Fail;

// kind, repeats, and what an empty sheet with them is turned down for
const SETTINGS: [(u8, u8, Option<(u8, usize)>); 9] = [
    (0, 0, Some((18, 16))),
    (1, 0, None),
    (2, 0, None),
    (3, 0, Some((18, 16))),
    (255, 0, Some((18, 16))),
    (1, 10, None),
    (2, 10, None),
    (1, 11, Some((18, 17))),
    (2, 255, Some((18, 17))),
];

#[test]
fn a_trailer_names_a_kind_and_repeats(rt: HostRuntime) -> Result<(), Fail> {
    for (kind, repeats, answer) in SETTINGS {
        let plan = Plan {
            kind,
            repeats,
            ..NOTHING
        };
        assert_eq!(rt;
            plan_turned_down(rt.alloc(), &plan)?,
            answer,
            "at {kind} {repeats}"
        );
    }
    Ok(())
}

// A reading, a mark of each list and a call. The trailer starts at 7.
const ONE_OF_EACH: [u8; 7] = [0, 0, 0, 9, 1, 2, b'M'];

// distances of its lists, and what it is turned down for
const DISTANCES: [([usize; 4], Option<(u8, usize)>); 15] = [
    ([7, 3, 2, 1], None),
    ([6, 3, 2, 1], Some((19, 7))),
    ([8, 3, 2, 1], Some((19, 7))),
    ([0, 0, 0, 0], Some((19, 7))),
    ([0x0000_0107, 3, 2, 1], Some((19, 7))),
    ([0x0001_0007, 3, 2, 1], Some((19, 7))),
    ([0x0100_0007, 3, 2, 1], Some((19, 7))),
    ([0x0700_0000, 3, 2, 1], Some((19, 7))),
    ([0xFFFF_FFFF, 3, 2, 1], Some((19, 7))),
    ([7, 8, 2, 1], Some((19, 7))),
    ([7, 3, 4, 1], Some((19, 7))),
    ([7, 3, 2, 3], Some((19, 7))),
    ([7, 0xFFFF_FFFF, 2, 1], Some((19, 7))),
    ([7, 3, 0xFFFF_FFFF, 1], Some((19, 7))),
    ([7, 3, 2, 0xFFFF_FFFF], Some((19, 7))),
];

#[test]
fn the_book_is_first_and_no_list_is_before_the_last(rt: HostRuntime) -> Result<(), Fail> {
    for (distances, answer) in DISTANCES {
        let sheet = with_trailer(rt.alloc(), &ONE_OF_EACH, distances, [READINGS, 0])?;
        assert_eq!(rt;
            turned_down(rt.alloc(), &sheet)?,
            answer,
            "at {distances:?}"
        );
    }
    Ok(())
}

// distances over six octets 0, and what they are turned down for
const SPLITS: [([usize; 4], Option<(u8, usize)>); 9] = [
    // a reading and two marks
    ([6, 2, 1, 0], None),
    ([6, 2, 2, 0], None),
    ([6, 2, 0, 0], None),
    // marks alone
    ([6, 6, 3, 0], None),
    ([6, 6, 6, 0], None),
    ([6, 6, 0, 0], None),
    // an octet 0 is no call
    ([6, 6, 6, 6], Some((22, 0))),
    ([6, 2, 1, 1], Some((22, 5))),
    // an octet is no reading
    ([6, 5, 1, 0], Some((20, 0))),
];

#[test]
fn lists_start_where_the_distances_say(rt: HostRuntime) -> Result<(), Fail> {
    for (distances, answer) in SPLITS {
        let sheet = with_trailer(rt.alloc(), &[0; 6], distances, [READINGS, 0])?;
        assert_eq!(rt;
            turned_down(rt.alloc(), &sheet)?,
            answer,
            "at {distances:?}"
        );
    }
    Ok(())
}

#[test]
fn a_bad_kind_or_repeats_are_found_behind_the_lists(rt: HostRuntime) -> Result<(), Fail> {
    for (settings, answer) in [
        ([0, 0], Some((18, 23))),
        ([3, 10], Some((18, 23))),
        ([1, 11], Some((18, 24))),
        ([1, 10], None),
    ] {
        let sheet = with_trailer(rt.alloc(), &ONE_OF_EACH, [7, 3, 2, 1], settings)?;
        assert_eq!(rt; turned_down(rt.alloc(), &sheet)?, answer, "at {settings:?}");
    }
    Ok(())
}
