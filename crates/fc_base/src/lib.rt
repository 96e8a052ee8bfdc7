//! What all crates of the library share: the error of refused memory, copies and boxes that may be refused, what
//! keys are searched by, and counts.
#![tactic(auto)]

pub mod asked;
pub mod boxed;
pub mod count;
mod given_back;
pub mod handle;
pub mod list_laws;
pub mod query;
pub mod rc;
pub mod try_clone;
pub mod try_reserve_error;

pub use asked::Asked;
pub use boxed::{FallibleBox, TryBox};
pub use count::{Count, compare};
pub use handle::Handle;
pub use query::Query;
pub use rc::FallibleRc;
pub use try_clone::{ByClone, TryClone};
pub use try_reserve_error::TryReserveError;
