//! Commands and replies as values, the lines that are commands, and the text of replies.
#![tactic(auto)]

pub mod command;
pub mod items;
pub mod lines;
pub mod replies;
mod set_lines;
