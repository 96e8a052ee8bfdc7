//! Tests of search, insertion, removal and cuts down a tree, by paths that are written out.
#![tactic(auto)]

#[cfg(test)]
mod cutting;
#[cfg(test)]
mod insertion;
#[cfg(test)]
mod pictures;
#[cfg(test)]
mod removal;
#[cfg(test)]
mod search;
#[cfg(test)]
mod trees;
