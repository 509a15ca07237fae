//! The marks of both lists.
use crate::plans::{NOTHING, Plan, plan_turned_down};
use std::test::Fail;

// K's marks follow a reading, and L's one mark more.
const BOOK: [u8; 4] = [0, 0, 0, 9];

// marks, and where they are turned down in their list
const MARKS: [(&[u8], Option<usize>); 11] = [
    (&[], None),
    (&[0, 1, 2], None),
    (&[2, 0, 2], None),
    (&[3, 0, 2], Some(0)),
    (&[2, 3, 2], Some(1)),
    (&[2, 0, 3], Some(2)),
    (&[255], Some(0)),
    (&[0, 255], Some(1)),
    (&[b'S'], Some(0)),
    (&[2; 64], None),
    (&[0; 65], Some(64)),
];

#[test]
fn marks_of_k_have_their_limits(rt: HostRuntime) -> Result<(), Fail> {
    for (marks, bad) in MARKS {
        let plan = Plan {
            book: &BOOK,
            to_hut: marks,
            ..NOTHING
        };
        let answer = bad.map(|place| (21, 4 + place));
        assert_eq!(rt;
            plan_turned_down(rt.alloc(), &plan)?,
            answer,
            "at {marks:?}"
        );
    }
    Ok(())
}

#[test]
fn marks_of_l_have_their_limits(rt: HostRuntime) -> Result<(), Fail> {
    for (marks, bad) in MARKS {
        let plan = Plan {
            book: &BOOK,
            to_hut: &[1],
            back: marks,
            ..NOTHING
        };
        let answer = bad.map(|place| (21, 5 + place));
        assert_eq!(rt;
            plan_turned_down(rt.alloc(), &plan)?,
            answer,
            "at {marks:?}"
        );
    }
    Ok(())
}

#[test]
fn each_list_has_64_marks_of_its_own(rt: HostRuntime) -> Result<(), Fail> {
    let plan = Plan {
        to_hut: &[1; 64],
        back: &[2; 64],
        ..NOTHING
    };
    assert_eq!(rt; plan_turned_down(rt.alloc(), &plan)?, None);
    let mut marks = [2; 64];
    marks[63] = 3;
    let last_of_k = Plan {
        to_hut: &marks,
        ..plan
    };
    assert_eq!(rt; plan_turned_down(rt.alloc(), &last_of_k)?, Some((21, 63)));
    let last_of_l = Plan {
        back: &marks,
        ..plan
    };
    assert_eq!(rt; plan_turned_down(rt.alloc(), &last_of_l)?, Some((21, 127)));
    Ok(())
}
