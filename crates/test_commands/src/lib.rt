//! Tests of commands, lines and sessions through their public calls, where no row of lines/ reaches.
//!
//! What a test costs is its proof. So each call with a large contract stands in one helper that promises nothing, and worlds are looked at by commands.
#![tactic(auto)]

#[cfg(test)]
mod budgets;
#[cfg(test)]
mod copies;
#[cfg(test)]
mod examples;
#[cfg(test)]
mod lists;
#[cfg(test)]
mod refusals;
#[cfg(test)]
mod rows;
#[cfg(test)]
mod serving;
#[cfg(test)]
mod walks;
#[cfg(test)]
mod worlds;
