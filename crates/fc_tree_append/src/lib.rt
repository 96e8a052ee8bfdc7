//! Two maps made one. Where all keys of one lie after those of the other, the shorter tree is grafted on the taller one's border; else
//! both are taken apart pair by pair, and a third is built of their pairs. A tree and a list of items in any order are made one like that: the items are sorted,
//! and merged with the tree's pairs into a new tree, whose nodes are all made first.
#![tactic(auto)]

pub mod append;
mod grafting;
mod items;
mod join;
mod merge;
pub mod sorted;
