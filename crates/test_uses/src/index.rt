//! Tables of rows with two second keys, through public calls, beside a plain list of rows, and with each request for memory refused in turn.
mod examples;
mod one_key;
mod plain;
mod ranges;
mod refusals;
mod rows;
mod walks;
