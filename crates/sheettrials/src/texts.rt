//! The numbers of refusals of sheets, and why there is no sheet, as text.
use loads::Refusal;
use sheet::{ReadError, SheetFault, SheetRefusal, fault_line};
use std::alloc::{AllocError, Global};
use std::fmt::Display;
use std::process::Abort;
use std::test::Fail;

// refusal, place, number and text
const FAULTS: [(SheetRefusal, usize, u8, &str); 14] = [
    (SheetRefusal::WrongSize, 0, 17, "sheet 17 at 0"),
    (SheetRefusal::WrongSize, 6, 17, "sheet 17 at 6"),
    (SheetRefusal::WrongSize, 16_385, 17, "sheet 17 at 16385"),
    (SheetRefusal::BadSetting, 6, 18, "sheet 18 at 6"),
    (SheetRefusal::BadSetting, 16_383, 18, "sheet 18 at 16383"),
    (SheetRefusal::BadDistances, 6, 19, "sheet 19 at 6"),
    (SheetRefusal::BadDistances, 16_366, 19, "sheet 19 at 16366"),
    (SheetRefusal::NoLoad, 6, 20, "sheet 20 at 6"),
    (SheetRefusal::NoLoad, 16_359, 20, "sheet 20 at 16359"),
    (SheetRefusal::BadMark, 6, 21, "sheet 21 at 6"),
    (SheetRefusal::BadMark, 16_365, 21, "sheet 21 at 16365"),
    (SheetRefusal::BadCall, 6, 22, "sheet 22 at 6"),
    (SheetRefusal::BadCall, 16_365, 22, "sheet 22 at 16365"),
    (
        SheetRefusal::WrongSize,
        18_446_744_073_709_551_615,
        17,
        "sheet 17 at 18446744073709551615",
    ),
];

// Why there is no sheet has this text.
fn has_text<E: Display>(rt: &impl Abort, heap: Global, why: &E, line: &str) -> Result<(), Fail> {
    let text = format!(in heap; "{why}")?;
    assert_eq!(rt; text.as_str(), line);
    Ok(())
}

// A fault has this text: by itself, as why there is no sheet, and as a printed line.
fn has_line(rt: &impl Abort, heap: Global, fault: SheetFault, line: &str) -> Result<(), Fail> {
    has_text(rt, heap, &fault, line)?;
    has_text(rt, heap, &ReadError::Refused(fault), line)?;
    assert_eq!(rt; fault_line(heap, fault)?.as_str(), line);
    Ok(())
}

#[test]
fn refusals_have_their_numbers_and_texts(rt: HostRuntime) -> Result<(), Fail> {
    for (refusal, place, number, line) in FAULTS {
        assert_eq!(rt; refusal.number(), number, "{line}");
        has_line(&rt, rt.alloc(), SheetFault { refusal, place }, line)?;
    }
    Ok(())
}

#[test]
fn errors_are_made_of_faults_and_of_want_of_memory(rt: HostRuntime) -> Result<(), Fail> {
    let fault = SheetFault {
        refusal: SheetRefusal::BadMark,
        place: 16_365,
    };
    assert_eq!(rt; ReadError::from(fault), ReadError::Refused(fault));
    assert_eq!(rt; ReadError::from(AllocError), ReadError::NoMemory);
    has_text(&rt, rt.alloc(), &ReadError::NoMemory, "no memory")
}
