//! A table of rows by an id and by two second keys, each in order.
#![tactic(auto)]

mod debug;
mod edge;
pub mod keyed;
mod steps;
pub mod table;

pub use fc_base::TryReserveError;
pub use keyed::Keyed;
pub use table::Table;
