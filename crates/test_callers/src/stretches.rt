//! The keys of a range asked in turn, by `retain_range` and `extract_range_if` of maps and sets, beside a plain look at each number.
mod closures;
mod maps;
mod rules;
mod sets;
mod tokens;
