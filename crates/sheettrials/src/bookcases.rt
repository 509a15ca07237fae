//! Books: records that are cut short, and pieces outside the map.
use crate::plans::{NOTHING, PIECES, Plan, READINGS, plan_turned_down};
use std::test::Fail;

// kind, how many octets 0 the book has, and what it is turned down for
const LENGTHS: [(u8, usize, Option<(u8, usize)>); 17] = [
    (READINGS, 1, Some((20, 0))),
    (READINGS, 2, Some((20, 0))),
    (READINGS, 3, Some((20, 0))),
    (READINGS, 4, None),
    (READINGS, 5, Some((20, 4))),
    (READINGS, 6, Some((20, 4))),
    (READINGS, 7, Some((20, 4))),
    (READINGS, 8, None),
    (READINGS, 11, Some((20, 8))),
    (PIECES, 1, Some((20, 0))),
    (PIECES, 4, Some((20, 0))),
    (PIECES, 18, Some((20, 0))),
    (PIECES, 19, None),
    (PIECES, 20, Some((20, 19))),
    (PIECES, 37, Some((20, 19))),
    (PIECES, 38, None),
    (PIECES, 56, Some((20, 38))),
];

#[test]
fn a_book_has_whole_records(rt: HostRuntime) -> Result<(), Fail> {
    for (kind, count, answer) in LENGTHS {
        let book = [0].repeat(rt.alloc(), count)?;
        let plan = Plan {
            book: &book,
            kind,
            ..NOTHING
        };
        assert_eq!(rt;
            plan_turned_down(rt.alloc(), &plan)?,
            answer,
            "at {kind} {count}"
        );
        // octets of the next list do not make a record whole
        let plan = Plan {
            to_hut: &[0; 19],
            ..plan
        };
        assert_eq!(rt;
            plan_turned_down(rt.alloc(), &plan)?,
            answer,
            "at {kind} {count}"
        );
    }
    Ok(())
}

// The octets of zoom, column and row, with a number and a body.
fn piece_octets(zoom: u8, column: u32, row: u32) -> [u8; 19] {
    let [c0, c1, c2, c3] = column.to_be_bytes();
    let [r0, r1, r2, r3] = row.to_be_bytes();
    [
        zoom, c0, c1, c2, c3, r0, r1, r2, r3, 255, 255, 255, 255, 255, 255, 255, 255, 255, 255,
    ]
}

// zoom, column, row, and whether they spell a piece
const TILES: [(u8, u32, u32, bool); 15] = [
    (0, 0, 0, true),
    (0, 1, 0, false),
    (0, 0, 1, false),
    (1, 1, 1, true),
    (1, 2, 1, false),
    (1, 1, 2, false),
    (19, 524_287, 524_287, true),
    (19, 524_288, 0, false),
    (20, 1_048_575, 1_048_575, true),
    (20, 1_048_576, 0, false),
    (20, 0, 1_048_576, false),
    (21, 0, 0, false),
    (32, 0, 0, false),
    (255, 0, 0, false),
    (20, 4_294_967_295, 0, false),
];

#[test]
fn pieces_keep_to_the_map(rt: HostRuntime) -> Result<(), Fail> {
    for (zoom, column, row, fits) in TILES {
        let piece = piece_octets(zoom, column, row);
        let plan = Plan {
            book: &piece,
            kind: PIECES,
            ..NOTHING
        };
        let answer = if fits { None } else { Some((20, 0)) };
        assert_eq!(rt;
            plan_turned_down(rt.alloc(), &plan)?,
            answer,
            "at {zoom} {column} {row}"
        );
        let good = [0; 19];
        let book = [good.as_slice(), &good, &piece].concat(rt.alloc())?;
        let plan = Plan {
            book: &book,
            ..plan
        };
        let answer = if fits { None } else { Some((20, 38)) };
        assert_eq!(rt;
            plan_turned_down(rt.alloc(), &plan)?,
            answer,
            "at {zoom} {column} {row}"
        );
    }
    Ok(())
}

#[test]
fn any_four_octets_are_a_reading(rt: HostRuntime) -> Result<(), Fail> {
    for octet in [1, 3, 21, 127, 128, 255] {
        let plan = Plan {
            book: &[octet; 8],
            ..NOTHING
        };
        assert_eq!(rt; plan_turned_down(rt.alloc(), &plan)?, None, "at {octet}");
    }
    Ok(())
}
