//! Tests of collections over other allocators than `Global`: under a budget of bytes, where each request in turn is refused, and in
//! heaps of the toolchain's crates.
//!
//! No clause says how many bytes a call asks for, or that what is refused gives back what it had taken. So each call is made with a few
//! bytes more left each time, until it is done: before that all has to be as it was, and the bytes with which it is done first are those
//! that reasoning tells.
#![tactic(auto)]

#[cfg(test)]
mod between;
#[cfg(test)]
mod budgets;
#[cfg(test)]
mod clones;
#[cfg(test)]
mod entries;
#[cfg(test)]
mod examples;
#[cfg(test)]
mod extensions;
#[cfg(test)]
mod filled;
#[cfg(test)]
mod heaps;
#[cfg(test)]
mod insertions;
#[cfg(test)]
mod items;
#[cfg(test)]
mod least;
#[cfg(test)]
mod memory;
#[cfg(test)]
mod numbers;
#[cfg(test)]
mod operators;
#[cfg(test)]
mod others;
#[cfg(test)]
mod reservation;
#[cfg(test)]
mod sizes;
#[cfg(test)]
mod vectors;
#[cfg(test)]
mod whole;
