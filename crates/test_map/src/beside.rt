//! Entries next to a key, by each of the four calls: read, written and taken out.
mod numbers;
mod texts;
