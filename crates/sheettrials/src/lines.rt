//! All that a sheet prints.
use crate::plans::Source::{Lists, Octets, Runs};
use crate::plans::{PIECES, READINGS, Source};
use sheetrun::sheet_lines;
use std::alloc::{AllocError, Global};
use std::process::Abort;
use std::test::Fail;

// A name, a sheet, and what it prints so many times.
type Printed = (&'static str, Source<'static>, &'static str, usize);

// Each sheet must print its lines.
fn assert_printed(rt: &impl Abort, heap: Global, cases: &[Printed]) -> Result<(), AllocError> {
    for (name, source, prints, times) in cases {
        let octets = source.octets(heap)?;
        let expected = prints.repeat(heap, *times)?;
        let lines = sheet_lines(heap, &octets)?;
        assert_eq!(rt; lines.as_str(), expected.as_str(), "{name}");
    }
    Ok(())
}

// The octets of a sheet of one reading, mark 1 for L, and repeats 1. The first reply is lost, so the reading is sent again,
// and not told twice.
const REPLY_LOST: [u8; 40] = [
    0, 0, 0, 7, 1, b'Q', 0, 0, 0, 1, b'S', b'C', b'T', b'R', b'B', b'Y', b'S', b'C', b'T', b'R',
    b'B', b'F', 0, 0, 0, 22, 0, 0, 0, 18, 0, 0, 0, 18, 0, 0, 0, 17, 1, 1,
];

// Two pieces: the first has zoom 1, column 1, row 0, number 2 and body 3.
const TWO_PIECES: [u8; 38] = [
    1, 0, 0, 0, 1, 0, 0, 0, 0, 0, 2, 0, 0, 0, 0, 0, 0, 0, 3, 20, 0, 0x0F, 0xFF, 0xFF, 0, 0x05,
    0x55, 0x55, 0, 3, 0x01, 0x23, 0x45, 0x67, 0x89, 0xAB, 0xCD, 0xEF,
];

const RUNS: [Printed; 7] = [
    (
        "a lost reply",
        Octets(&[(&REPLY_LOST, 1)]),
        "Q 0\nS 0\nC 0 ARRIVED\nT 0 OK 00000007\nR 0\nB 0 LOST\n\
         Y 0\nS 0\nC 0 ARRIVED\nT 8\nR 0\nB 0 ARRIVED\nF 0 OK\n",
        1,
    ),
    // K loses the first frame, passes the second and delays the third; L has no marks
    (
        "two pieces",
        Lists(
            &TWO_PIECES,
            &[1, 0, 2],
            &[],
            b"Q\0\0\0\x02SCYSCTRBSCCTRABFQ\0\0\0\x03",
            [PIECES, 1],
        ),
        "Q 0\nS 0\nC 0 LOST\nY 0\nS 0\nC 0 ARRIVED\n\
         T 0 FIRST 01000000010000000000020000000000000003\nR 0\nB 0 ARRIVED\n\
         S 0\nC 0 STILL\nC 0 ARRIVED\n\
         T 0 OK 14000FFFFF0005555500030123456789ABCDEF\nR 0\nA 8\nB 0 ARRIVED\nF 0 OK\nQ 7\n",
        1,
    ),
    // given up behind the first of two loads, so that the hut tells a break
    (
        "given up",
        Lists(
            &[0, 0, 0, 7, 0, 0, 0, 8],
            &[],
            &[],
            b"Q\0\0\0\x02SCTRBAFPNMC",
            [READINGS, 0],
        ),
        "Q 0\nS 0\nC 0 ARRIVED\nT 0 FIRST 00000007\nR 0\nB 0 ARRIVED\n\
         A 0\nF 0 NOT_OK\nP 0\nN 0\nM 0\nC 10\n",
        1,
    ),
    // the one load is lost, and not sent again
    (
        "a lost load",
        Lists(&[0, 0, 0, 7], &[1], &[], b"Q\0\0\0\x01SCYSF", [READINGS, 0]),
        "Q 0\nS 0\nC 0 LOST\nY 0\nS 8\nF 0 DONT_KNOW\n",
        1,
    ),
    // the same with one repeat, under which the load is sent twice
    (
        "a load lost twice",
        Lists(
            &[0, 0, 0, 7],
            &[1, 1, 1],
            &[],
            b"Q\0\0\0\x01SCYSCYSF",
            [READINGS, 1],
        ),
        "Q 0\nS 0\nC 0 LOST\nY 0\nS 0\nC 0 LOST\nY 0\nS 8\nF 0 DONT_KNOW\n",
        1,
    ),
    // a load from the middle of the book
    (
        "the middle of a book",
        Lists(
            &[0, 0, 0, 7, 0, 0, 0, 8, 0, 0, 0, 9],
            &[],
            &[],
            b"Q\0\x01\0\x01SCT",
            [READINGS, 0],
        ),
        "Q 0\nS 0\nC 0 ARRIVED\nT 0 OK 00000008\n",
        1,
    ),
    // no book, and requests of no load and of too many
    (
        "bad requests",
        Lists(
            &[],
            &[],
            &[],
            b"Q\0\0\0\x01Q\0\0\0\0Q\0\0\x10\x01S",
            [READINGS, 0],
        ),
        "Q 7\nQ 6\nQ 6\nS 8\n",
        1,
    ),
];

#[test]
fn sheets_print_their_runs(rt: HostRuntime) -> Result<(), Fail> {
    assert_printed(&rt, rt.alloc(), &RUNS)?;
    Ok(())
}

// Without calls, with the most of them, and refused.
const OTHERS: [Printed; 7] = [
    (
        "an empty sheet",
        Lists(&[], &[], &[], &[], [READINGS, 0]),
        "",
        1,
    ),
    (
        "no calls",
        Lists(&TWO_PIECES, &[1], &[2], &[], [PIECES, 0]),
        "",
        1,
    ),
    (
        "1024 calls",
        Runs(&[(b"M", 1_024)], [1_024; 4], [READINGS, 0]),
        "M 8\n",
        1_024,
    ),
    ("no octet", Octets(&[]), "sheet 17 at 0\n", 1),
    // the calls before a bad one are not made
    (
        "a bad call",
        Lists(&[], &[], &[], b"MMx", [READINGS, 0]),
        "sheet 22 at 2\n",
        1,
    ),
    (
        "a bad piece",
        Lists(&[21; 19], &[], &[], &[], [PIECES, 0]),
        "sheet 20 at 0\n",
        1,
    ),
    (
        "a bad kind",
        Lists(&[], &[], &[], &[], [0, 0]),
        "sheet 18 at 16\n",
        1,
    ),
];

#[test]
fn sheets_print_nothing_or_one_line_over_and_over(rt: HostRuntime) -> Result<(), Fail> {
    assert_printed(&rt, rt.alloc(), &OTHERS)?;
    Ok(())
}
