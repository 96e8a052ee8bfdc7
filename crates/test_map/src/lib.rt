//! Tests of the ordered map that are no rows of `probe_map`: under refused memory, by keys and values of other types, and by callers
//! with clauses of their own.
#![tactic(auto)]

#[cfg(test)]
mod beside;
#[cfg(test)]
mod compare;
#[cfg(test)]
mod copies;
#[cfg(test)]
mod counted;
#[cfg(test)]
mod ends;
#[cfg(test)]
mod extend;
#[cfg(test)]
mod get_mut;
#[cfg(test)]
mod iter;
#[cfg(test)]
mod loads;
#[cfg(test)]
mod map;
#[cfg(test)]
mod neighbours;
#[cfg(test)]
mod numbers;
#[cfg(test)]
mod outwards;
#[cfg(test)]
mod owned;
#[cfg(test)]
mod pop_if;
#[cfg(test)]
mod printing;
#[cfg(test)]
mod queries;
#[cfg(test)]
mod ready;
#[cfg(test)]
mod refusals;
#[cfg(test)]
mod remove_range;
#[cfg(test)]
mod requests;
#[cfg(test)]
mod reservation;
#[cfg(test)]
mod retain;
#[cfg(test)]
mod sizes;
#[cfg(test)]
mod sorted;
#[cfg(test)]
mod whole;
