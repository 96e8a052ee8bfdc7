//! Caches beside a plain list in the order of use, and with requests for memory refused.
pub mod callers;
#[cfg(test)]
mod calls;
#[cfg(test)]
mod examples;
#[cfg(test)]
mod order;
#[cfg(test)]
mod owned;
#[cfg(test)]
mod refusals;
#[cfg(test)]
mod walks;
