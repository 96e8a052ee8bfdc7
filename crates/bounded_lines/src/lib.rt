//! Lines of a source, each in room of its own: to read one takes no memory.
#![tactic(auto)]

mod lines;
mod source;

pub use lines::{Line, number};
pub use source::Pieces;
