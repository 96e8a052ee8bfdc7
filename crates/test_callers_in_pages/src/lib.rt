//! Refused memory in a caller's own tests.
#![tactic(auto)]

#[cfg(test)]
mod budgets;
#[cfg(test)]
mod errors;
#[cfg(test)]
mod idioms;
#[cfg(test)]
mod refusals;
#[cfg(test)]
mod set_reservation;
