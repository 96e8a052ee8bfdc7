//! Tests of bounded reading, of vectors as writers and of printing through their public calls.
#![tactic(auto)]

#[cfg(test)]
mod budgets;
#[cfg(test)]
mod examples;
#[cfg(test)]
mod lines;
pub mod pieces;
#[cfg(test)]
mod printing;
#[cfg(test)]
mod reading;
#[cfg(test)]
mod writing;
