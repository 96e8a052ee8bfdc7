//! The pair next to a key: rates by the amounts from which on they hold, and names in order.
ghost use Rattle.std.specs.Prelude.{◌≡◌, IfOk, MatchOption, OnErr, OnOk, Some};
ghost use Rattle.std.specs.Option.{option_map};
ghost use Rattle.std.specs.Ordering.{nat_cmp};
ghost use Rattle.std.specs.declared.ops.Bound.TheVariants.{Included, Unbounded};
ghost use Rattle.fallible_collections.specs.Words.{above, below, entries, first_item, greater, items, last_item, not_above, now_pair, put, text_order, within};

use fallible_collections::TryReserveError;
use fallible_collections::btree::{BTreeMap, BTreeSet};

/// The rate of an amount: that of the last step at it or before it.
pub fn rate_at(steps: &BTreeMap<u64, u64>, amount: u64) -> Option<u64>
    ensures { result ≡ option_map (λ e. e.1) (last_item (not_above nat_cmp (entries steps.now) amount)) }
{
    let (_from, rate) = steps.last_at_or_before(&amount)?;
    Some(*rate)
}

/// Writes the rate of an amount, where it has one: it lends the value by the key that was found.
pub fn set_rate_at(steps: &mut BTreeMap<u64, u64>, amount: u64, rate: u64)
    ensures { MatchOption (last_item (not_above nat_cmp (entries steps.old) amount)) (steps.new ≡ steps.old) (λ step. entries steps.new ≡ put nat_cmp (entries steps.old) step.0 rate) }
{
    let Some((from, _rate)) = steps.last_at_or_before(&amount) else {
        return;
    };
    let from = *from;
    if let Some(held) = steps.get_mut(&from) {
        *held = rate;
    }
}

/// Puts in a step, and answers the rate of its amount: the one that was put.
pub fn add_step(
    steps: &mut BTreeMap<u64, u64>,
    from: u64,
    rate: u64,
) -> Result<Option<u64>, TryReserveError>
    ensures there { IfOk result (λ found. found ≡ Some rate) }
    ensures put { OnOk result (entries steps.new ≡ put nat_cmp (entries steps.old) from rate) }
    ensures unchanged { OnErr result (steps.new ≡ steps.old) }
{
    steps.try_insert(from, rate)?;
    Ok(rate_at(steps, from))
}

/// Takes out a step, and answers the rate that its amount has then: that of the last step before it.
#[tactic(auto, using(fallible_collections::proofs::Laws::not_above_cut))]
pub fn remove_step(steps: &mut BTreeMap<u64, u64>, from: u64) -> Option<u64>
    ensures { result ≡ option_map (λ e. e.1) (last_item (below nat_cmp (entries steps.old) from)) }
{
    steps.remove(&from);
    rate_at(steps, from)
}

/// The first pair of the range from a key on, by one way down the tree and no walk.
#[tactic(auto, using(fallible_collections::proofs::Laws::within_from))]
pub fn first_from<'a, K: Ord + Drop, V: Drop>(
    map: &'a BTreeMap<K, V>,
    key: &K,
) -> Option<(&'a K, &'a V)>
    ensures { now_pair result ≡ first_item (within K.cmp (Included key.now) Unbounded (entries map.now)) }
{
    map.first_at_or_after(key)
}

/// The first name after this one, which is itself no `String`.
pub fn next_name<'a>(ages: &'a BTreeMap<String, u64>, name: &str) -> Option<(&'a String, &'a u64)>
    ensures { now_pair result ≡ first_item (above text_order (entries ages.now) name.now) }
{
    ages.first_after(name)
}

/// The first number after this one.
pub fn next_number(numbers: &BTreeSet<u64>, number: u64) -> Option<u64>
    ensures { result ≡ first_item (greater nat_cmp (items numbers.now) number) }
{
    numbers.first_after(&number).copied()
}
