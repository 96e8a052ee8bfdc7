//! Timers beside a plain row of them, in a budget, and with each request for memory refused in turn.
#![tactic(auto)]

#[cfg(test)]
mod budget;
#[cfg(test)]
mod copies;
#[cfg(test)]
mod examples;
#[cfg(test)]
mod listed;
#[cfg(test)]
mod order;
#[cfg(test)]
mod owned;
#[cfg(test)]
mod refusals;
#[cfg(test)]
mod row;
#[cfg(test)]
mod values;
#[cfg(test)]
mod walks;
