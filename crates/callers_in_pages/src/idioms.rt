//! What a Rust programmer writes on collections, as it stands in programs.
use fallible_collections::btree::{BTreeMap, BTreeSet};
use fallible_collections::{TryClone, TryCollect, TryHashMap, TryReserveError, TryVec};
use std::alloc::{AllocError, Global};
use std::mem;

/// Groups a value by its key: a vector for each key, which takes its memory where the map does.
pub fn group(
    groups: &mut BTreeMap<u64, Vec<u64>>,
    key: u64,
    value: u64,
) -> Result<(), TryReserveError> {
    groups.try_entry(key)?.or_default()?.push(value)?;
    Ok(())
}

/// A map in each place of a map.
pub fn count_pair(
    counts: &mut BTreeMap<u64, BTreeMap<u64, u64>>,
    row: u64,
    column: u64,
) -> Result<(), TryReserveError> {
    let count = counts
        .try_entry(row)?
        .or_default()?
        .try_entry(column)?
        .or_default()?;
    *count = count.saturating_add(1);
    Ok(())
}

/// How many keys lie in each kind of Rust's ranges.
pub fn counts(map: &BTreeMap<u64, u64>) -> [usize; 6] {
    [
        map.range(3..7).count(),
        map.range(3..=7).count(),
        map.range(3..).count(),
        map.range(..7).count(),
        map.range(..=7).count(),
        map.range(..).count(),
    ]
}

/// Whether an item lies from the first bound on and before the second.
pub fn has_between(set: &BTreeSet<u64>, low: u64, high: u64) -> bool {
    set.range(low..high).next().is_some()
}

/// A map of texts, copied.
pub fn copied(map: &BTreeMap<String, String>) -> Result<BTreeMap<String, String>, TryReserveError> {
    map.try_clone()
}

/// An index by pairs, copied.
pub fn copied_index(
    map: &BTreeMap<(u64, u64), (char, u128)>,
) -> Result<BTreeMap<(u64, u64), (char, u128)>, TryReserveError> {
    map.try_clone()
}

/// The words of both sets.
pub fn united(
    a: &BTreeSet<String>,
    b: &BTreeSet<String>,
) -> Result<BTreeSet<String>, TryReserveError> {
    a.bitor(b)
}

/// What a program keeps of a user: copied, compared, ordered, hashed and printed as a whole.
#[derive(Clone, PartialEq, Eq, PartialOrd, Ord, Hash, Debug, Drop)]
pub struct Account {
    pub orders: BTreeMap<u64, u64>,
    pub tags: BTreeSet<u64>,
}

/// A copy of an account.
pub fn second(account: &Account) -> Result<Account, AllocError> {
    account.clone()
}

/// The map, of which an empty one is left.
pub fn taken(map: &mut BTreeMap<u64, u64>) -> Result<BTreeMap<u64, u64>, AllocError> {
    mem::try_take(map)
}

/// Squares by their roots, of what an iterator gives.
pub fn squares(alloc: Global, roots: &[u32]) -> Result<BTreeMap<u64, u64>, TryReserveError> {
    TryCollect::try_collect(
        roots.iter().map(|root| {
            let root = *root as u64;
            (root, root.wrapping_mul(root))
        }),
        alloc,
    )
}

/// All pairs of the other map, put in one by one.
pub fn extend(
    map: &mut BTreeMap<u64, u64>,
    other: BTreeMap<u64, u64>,
) -> Result<(), TryReserveError> {
    map.try_extend(other)
}

/// How often each word comes, by a hash.
pub fn count_word(counts: &mut TryHashMap<u64, u64>, word: u64) -> Result<(), TryReserveError> {
    let count = counts.entry(word)?.or_insert(0);
    *count = count.saturating_add(1);
    Ok(())
}

/// The greatest item of a sorted vector, where it has the item that is sought, and another.
pub fn greatest(sorted: &TryVec<u64>, sought: u64) -> Option<u64> {
    sorted.binary_search(&sought).ok()?;
    sorted.windows(2).next()?;
    sorted.iter().max().copied()
}
