//! Maps and sets of many types: keys that are equal and not the same, keys of several parts or of any length, maps in a map, and keys
//! and values of no size or a large one.
//!
//! What a test costs is its proof. So each call on a type stands in a plain helper, and what all types share in one that is generic. What costs most is to own
//! collections where a request for memory may be refused. So a map or a set is made by `new`, which is never refused, in a function that ends by lending it to
//! the one that fills and judges it.
#![tactic(auto)]

#[cfg(test)]
mod clones;
#[cfg(test)]
mod collected;
#[cfg(test)]
mod counted;
#[cfg(test)]
mod few;
#[cfg(test)]
mod first_uses;
#[cfg(test)]
mod kinds;
#[cfg(test)]
mod loads;
#[cfg(test)]
mod map_examples;
#[cfg(test)]
mod nested;
#[cfg(test)]
mod operators;
#[cfg(test)]
mod owned;
#[cfg(test)]
mod prefixes;
#[cfg(test)]
mod printing;
#[cfg(test)]
mod retain;
#[cfg(test)]
mod set_examples;
#[cfg(test)]
mod sizes;
#[cfg(test)]
mod tagged;
#[cfg(test)]
mod words;
