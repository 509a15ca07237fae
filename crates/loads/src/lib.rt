//! What a frame carries, the frame itself, and both as octets.

#![tactic(auto)]

mod books;
mod empties;
mod faults;
mod frames;
mod kinds;
mod pieces;
mod readings;
mod refusals;
mod roundtrips;

pub use books::Book;
pub use empties::EmptyLoad;
pub use faults::Fault;
pub use frames::{Frame, LONGEST_FRAME, kind_of};
pub use kinds::Load;
pub use pieces::Piece;
pub use readings::Reading;
pub use refusals::{Refusal, answer_number};
pub use roundtrips::{frame_comes_back, load_comes_back};
