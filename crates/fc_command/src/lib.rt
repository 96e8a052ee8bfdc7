//! Commands over ordered maps: as values, as lists of values, and as lines of text.
#![tactic(auto)]

pub mod command;
