//! The same of a budget that threads share, in one thread.
mod blocks;
mod collections;
mod inner;
mod refusals;
