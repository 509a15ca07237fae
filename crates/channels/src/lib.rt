//! Four channels, of which any pile is a channel again.

#![tactic(auto)]

mod hops;
mod marks;
mod rains;
mod stores;
mod wires;

pub use hops::Hop;
pub use marks::{MOST_MARKS, Mark, NotAMark};
pub use rains::{BadMarks, Rain};
pub use stores::Store;
pub use wires::Wire;
