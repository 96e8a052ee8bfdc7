//! Tests of callers over maps and sets, in one crate as each crate over maps is dear before its first function: callers of the map, the keys of a range asked in turn by
//! a closure, and bounds that the library's types meet.
#![tactic(auto)]

#[cfg(test)]
mod bounds;
#[cfg(test)]
mod of_map;
#[cfg(test)]
mod stretches;
