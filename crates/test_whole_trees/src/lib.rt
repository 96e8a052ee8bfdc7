//! Tests of the calls that join, cut or build whole trees: appends, also where memory is refused, splits, maps made of an
//! iterator's pairs, and trees built from their first pair on.
#![tactic(auto)]

#[cfg(test)]
mod append;
#[cfg(test)]
mod from_iterator;
#[cfg(test)]
mod odds;
#[cfg(test)]
mod refused;
#[cfg(test)]
mod split_off;
#[cfg(test)]
mod tracked;
#[cfg(test)]
mod trees;
