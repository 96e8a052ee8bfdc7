//! Tests of errors, copies, boxes, shared values and counts through the public calls of `fc_base`.
#![tactic(auto)]

#[cfg(test)]
mod boxed;
#[cfg(test)]
mod budgets;
#[cfg(test)]
mod contents;
#[cfg(test)]
mod count;
#[cfg(test)]
mod errors;
#[cfg(test)]
mod examples;
#[cfg(test)]
mod rc;
#[cfg(test)]
mod try_clone;
#[cfg(test)]
mod try_reserve_error;
