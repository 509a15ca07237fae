//! How many octets a sheet has.
use crate::plans::Source::{Octets, Runs};
use crate::plans::{Case, NOTHING, READINGS, Source, assert_answers};
use std::test::Fail;

// With 18 octets of trailer there is room for 4,091 readings and 2 octets more.
const FULL: Source<'static> = Runs(
    &[(&[0xA5], 16_364), (b"\x02S", 1)],
    [16_366, 2, 1, 1],
    [READINGS, 0],
);

// The same with a mark of L.
const OVER: Source<'static> = Runs(
    &[(&[0xA5], 16_364), (b"\x02\x01S", 1)],
    [16_367, 3, 2, 1],
    [READINGS, 0],
);

const SIZES: [Case<'static>; 6] = [
    ("no octet", Octets(&[]), Some((17, 0))),
    ("1 octet", Octets(&[(&[0], 1)]), Some((17, 1))),
    (
        "17 octets",
        Octets(&[(&[0], 16), (&[1], 1)]),
        Some((17, 17)),
    ),
    ("a trailer", Octets(&[(&[0], 16), (&[1, 0], 1)]), None),
    ("16384 octets", FULL, None),
    ("16385 octets", OVER, Some((17, 16_385))),
];

#[test]
fn a_sheet_has_18_to_16384_octets(rt: HostRuntime) -> Result<(), Fail> {
    assert_answers(&rt, rt.alloc(), &SIZES)?;
    let empty = NOTHING.octets(rt.alloc())?;
    assert_eq!(rt;
        empty.as_slice(),
        [0, 0, 0, 0, 0, 0, 0, 0, 0, 0, 0, 0, 0, 0, 0, 0, 1, 0].as_slice()
    );
    let full = FULL.octets(rt.alloc())?;
    assert_eq!(rt; full.len(), 16_384);
    Ok(())
}
