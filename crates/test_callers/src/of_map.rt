//! Callers of the map, whose clauses rest on the map's public ones.
mod requests;
mod tables;
mod turns;
