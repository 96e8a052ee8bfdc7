//! Values of points by stretches, beside a plain row of the points, and with each request for memory refused in turn.
mod examples;
mod extend;
mod first_gap;
mod handed;
mod joins;
mod numbers;
mod open;
mod owned;
mod refusals;
mod row;
mod taken;
mod value;
mod walks;
mod whole;
