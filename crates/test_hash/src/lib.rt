//! Tests of the hashed map through its public calls.
#![tactic(auto)]

#[cfg(test)]
mod budgets;
#[cfg(test)]
mod entries;
#[cfg(test)]
mod errors;
#[cfg(test)]
mod examples;
#[cfg(test)]
mod large;
#[cfg(test)]
mod map;
#[cfg(test)]
mod owned;
#[cfg(test)]
mod printing;
#[cfg(test)]
mod sets;
#[cfg(test)]
mod tokens;
#[cfg(test)]
mod whole;
