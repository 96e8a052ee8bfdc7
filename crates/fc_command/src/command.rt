//! Commands over a world of ordered maps and sets, their lines and the text of their replies.

mod failed;
mod kinds;
mod operations;
mod session;
mod sets;
mod world;

pub use fc_lines::command::{Command, End, Reply, SetOp, Side};
pub use fc_lines::items::Items;
pub use session::{ServeEnd, ServeError, ending, serve, serve_within};
pub use world::World;
