//! Tests of the vectors through their public calls.
//!
//! What a test costs is its proof. So each call of the library stands in a helper of its own that promises nothing, and a test goes straight through
//! its calls and compares what it has seen at the end.
#![tactic(auto)]

#[cfg(test)]
mod as_in_std;
#[cfg(test)]
mod budgets;
#[cfg(test)]
mod calls;
#[cfg(test)]
mod copies;
#[cfg(test)]
mod drops;
#[cfg(test)]
mod examples;
#[cfg(test)]
mod items;
#[cfg(test)]
mod large;
#[cfg(test)]
mod ordered;
#[cfg(test)]
mod owned;
#[cfg(test)]
mod printing;
#[cfg(test)]
mod refusals;
#[cfg(test)]
mod requests;
#[cfg(test)]
mod try_vec;
#[cfg(test)]
mod vectors;
