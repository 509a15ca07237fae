//! Call sheets: a book, the marks of two channels, calls and a trailer as one string of octets, and their reader.

#![tactic(auto)]

mod anysheets;
mod checks;
mod faults;
mod layouts;
mod parts;
mod readers;
mod records;
mod sections;
mod sheets;

pub use anysheets::AnySheet;
pub use faults::{ReadError, SheetFault, SheetRefusal, fault_line};
pub use layouts::MOST_OCTETS;
pub use parts::{Part, Way};
pub use sheets::Sheet;
