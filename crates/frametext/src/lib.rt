//! Frames of any kind, and the printed lines of frames, puts and polls.

#![tactic(auto)]

mod anyframes;
mod hexadecimals;
mod lines;
mod uses;

pub use anyframes::AnyFrame;
pub use hexadecimals::{hexadecimal, push_hexadecimal};
pub use lines::{frame_line, frame_lines};
pub use uses::use_line;
