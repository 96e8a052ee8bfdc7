//! Values for tests, which tell what is done with them: how often they are compared, made and dropped, and which of two equal ones is there.
#![tactic(auto)]

mod counting;
mod memory;
mod owned;
mod stubborn;
mod tagged;
mod token;

pub use counting::CountingKey;
pub use memory::is_ample;
pub use owned::Owned;
use std::cell::Cell;
pub use stubborn::Stubborn;
pub use tagged::Tagged;
pub use token::{Tally, Token};

/// Counts one more.
pub fn add_one(count: &Cell<u64>) {
    count.set(count.get().wrapping_add(1));
}
