//! Tests of budgets: what is counted, what is refused, and that all comes back. No clause sees the count of a budget, so these do.
//!
//! What a test costs is its proof. So what makes collections stands in helpers that promise nothing, and a test compares what it has seen at the end.
#![tactic(auto)]

#[cfg(test)]
mod account;
#[cfg(test)]
mod blocks;
#[cfg(test)]
mod collections;
#[cfg(test)]
mod examples;
#[cfg(test)]
mod inner;
#[cfg(test)]
mod refusals;
#[cfg(test)]
mod shared;
#[cfg(test)]
mod threads;
