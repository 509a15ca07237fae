//! Calls: their letters, the operands of a request, and how many there are.
use crate::plans::{NOTHING, Plan, plan_turned_down};
use std::test::Fail;

#[test]
fn no_other_octet_is_a_letter(rt: HostRuntime) -> Result<(), Fail> {
    let letters = b"SCTRBYAFPNM";
    for octet in 0..=255 {
        let plan = Plan {
            calls: &[b'M', octet],
            ..NOTHING
        };
        // a lone Q lacks its operands
        let answer = if letters.contains(&octet) {
            None
        } else {
            Some((22, 1))
        };
        assert_eq!(rt; plan_turned_down(rt.alloc(), &plan)?, answer, "at {octet}");
    }
    Ok(())
}

// calls, and what a sheet of them is turned down for
const CALLS: [(&[u8], Option<(u8, usize)>); 16] = [
    (b"", None),
    (b"q\0\0\0\x01", Some((22, 0))),
    (b"s", Some((22, 0))),
    (b"0", Some((22, 0))),
    (b"\0", Some((22, 0))),
    (b"\xFF", Some((22, 0))),
    (b"SCx", Some((22, 2))),
    (b"Q", Some((22, 0))),
    (b"Q\0", Some((22, 0))),
    (b"Q\0\0", Some((22, 0))),
    (b"Q\0\0\0", Some((22, 0))),
    (b"Q\0\0\0\x01", None),
    (b"MQ\0\0\0", Some((22, 1))),
    // letters that stand as operands are no calls
    (b"QSSS", Some((22, 0))),
    (b"Qxxxx", None),
    (b"QSSSSx", Some((22, 5))),
];

#[test]
fn a_request_has_four_octets_of_operands(rt: HostRuntime) -> Result<(), Fail> {
    for (calls, answer) in CALLS {
        let plan = Plan { calls, ..NOTHING };
        assert_eq!(rt;
            plan_turned_down(rt.alloc(), &plan)?,
            answer,
            "at {calls:?}"
        );
    }
    Ok(())
}

#[test]
fn calls_are_found_behind_the_marks(rt: HostRuntime) -> Result<(), Fail> {
    let plan = Plan {
        book: &[0; 8],
        to_hut: &[0; 3],
        back: &[0; 2],
        calls: b"MQ\0\0\0\0x",
        ..NOTHING
    };
    // behind 8 octets of book and 5 marks, the seventh
    assert_eq!(rt; plan_turned_down(rt.alloc(), &plan)?, Some((22, 19)));
    Ok(())
}

// calls, how often, and what a sheet of them is turned down for
const COUNTS: [(&[u8], usize, Option<(u8, usize)>); 6] = [
    (b"M", 1_024, None),
    (b"M", 1_025, Some((22, 1_024))),
    (b"M", 2_000, Some((22, 1_024))),
    (b"Q\0\0\0\x01", 1_024, None),
    (b"Q\0\0\0\x01", 1_025, Some((22, 5_120))),
    // 512 pairs, of 6 octets each
    (b"SQ\0\0\0\x01", 513, Some((22, 3_072))),
];

#[test]
fn a_sheet_has_at_most_1024_calls(rt: HostRuntime) -> Result<(), Fail> {
    for (call, count, answer) in COUNTS {
        let calls = call.repeat(rt.alloc(), count)?;
        let plan = Plan {
            calls: &calls,
            ..NOTHING
        };
        assert_eq!(rt;
            plan_turned_down(rt.alloc(), &plan)?,
            answer,
            "at {call:?} {count}"
        );
    }
    Ok(())
}
