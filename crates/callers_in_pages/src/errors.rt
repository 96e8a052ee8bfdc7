//! Refused calls in a program that answers by `anyhow`.
ghost use Rattle.std.specs.Prelude.{◌≡◌, OnErr, OnOk};
ghost use Rattle.fallible_collections.specs.Words.{entries, put};

use anyhow::{Context, Result};
use fallible_collections::btree::BTreeMap;
use fallible_collections::btree::map::insert_both;
use fallible_collections::{Handle, TryReserveError, TryVec};

/// Puts a count at a number and the number at its count: both, or neither.
///
/// # Errors
/// Where memory was refused. Both maps are then as they were.
pub fn paired<A: Handle>(
    counts: &mut BTreeMap<u64, u64, A>,
    numbers: &mut BTreeMap<u64, u64, A>,
    number: u64,
    count: u64,
) -> Result<()>
    ensures put { OnOk result (entries counts.new ≡ put ⟦<u64 as Ord>⟧.cmp (entries counts.old) number count) }
    ensures reverse { OnOk result (entries numbers.new ≡ put ⟦<u64 as Ord>⟧.cmp (entries numbers.old) count number) }
    ensures unchanged { OnErr result ((counts.new ≡ counts.old) × (numbers.new ≡ numbers.old)) }
{
    // A tuple is no error: it becomes the one in it first.
    insert_both(counts, numbers, number, count, count, number).map_err(TryReserveError::from)?;
    Ok(())
}

/// The numbers, without those that came before.
///
/// # Errors
/// Where memory was refused, with what it was for.
pub fn once<A: Handle>(alloc: A, numbers: &[u64]) -> Result<TryVec<u64, A>> {
    let mut seen = BTreeMap::new(alloc);
    let mut first = TryVec::new(alloc);
    for number in numbers {
        let old = seen.try_insert(*number, ()).map_err(TryReserveError::from)?;
        if old.is_none() {
            first.push(*number).context("no room in the list")?; // `TryReserveError` is an error as it stands
        }
    }
    Ok(first)
}
