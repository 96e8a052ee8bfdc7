//! Tests of collections made of maps and of hashed maps: tables of rows, values of points by stretches, and caches, each beside a plain list of what it holds, and with
//! requests for memory refused.
#![tactic(auto)]

#[cfg(test)]
mod bytes;
pub mod cache;
#[cfg(test)]
mod index;
#[cfg(test)]
mod intervals;
