//! What is known of all pairs of a map, or of a sum over them, as single pairs are put and taken out.
ghost use Rattle.std.specs.Prelude.{◌≡◌, ◌+◌, ◌^◌, ◌<◌, ◌≤◌, nat_le, All, IfOk, OnErr};
ghost use Rattle.std.specs.List.{filter, sum_by};
ghost use Rattle.std.specs.declared.cmp.Ordering.TheVariants.{Equal};
ghost use Rattle.fallible_collections.specs.Words.{cut, entries, item_at, items, text_order, value_at};

use fallible_collections::TryReserveError;
use fallible_collections::btree::{BTreeMap, BTreeSet};

/// Sets an amount, and answers the total of all amounts, which it is told from before: no walk over the map. Refused, the amounts are as they were.
pub fn set_amount<K: Ord + Drop>(
    amounts: &mut BTreeMap<K, u64>,
    total: u64,
    key: K,
    amount: u64,
) -> Result<u64, TryReserveError>
    requires told { total ≡ sum_by (λ e. e.1) (entries amounts.old) }
    requires fits { total + amount < 2 ^ 64 }
    ensures total { IfOk result (λ t. t ≡ sum_by (λ e. e.1) (entries amounts.new)) }
    ensures unchanged { OnErr result (amounts.new ≡ amounts.old) }
{
    let _len = amounts.len(); // shows that the keys ascend, on which the law rests
    match amounts.try_insert(key, amount)? {
        Some(old) => Ok(total + amount - old),
        None => Ok(total + amount),
    }
}

/// Takes an amount out, and answers the total of those that are left.
pub fn drop_amount<K: Ord + Drop>(amounts: &mut BTreeMap<K, u64>, total: u64, key: &K) -> u64
    requires { total ≡ sum_by (λ e. e.1) (entries amounts.old) }
    ensures { result ≡ sum_by (λ e. e.1) (entries amounts.new) }
{
    let _len = amounts.len(); // shows that the keys ascend
    match amounts.remove(key) {
        Some(old) => total - old,
        None => total,
    }
}

/// Puts an amount that is no greater than the limit into a map of such amounts.
pub fn put_limited<K: Ord + Drop>(
    amounts: &mut BTreeMap<K, u64>,
    limit: u64,
    key: K,
    amount: u64,
) -> Result<(), TryReserveError>
    requires all { All (λ e. e.1 ≤ limit) (entries amounts.old) }
    requires one { amount ≤ limit }
    ensures { All (λ e. e.1 ≤ limit) (entries amounts.new) }
{
    amounts.try_insert(key, amount)?;
    Ok(())
}

/// Takes an amount out: those of at least the limit that are left are those from before without it.
pub fn taken_of_large<K: Ord + Drop>(amounts: &mut BTreeMap<K, u64>, limit: u64, key: &K)
    ensures { filter (λ e. nat_le limit e.1) (entries amounts.new) ≡ cut K.cmp (filter (λ e. nat_le limit e.1) (entries amounts.old)) key.now }
{
    amounts.remove(key);
}

/// Takes a word out, and answers the count of another one, which stays.
pub fn count_beside(counts: &mut BTreeMap<String, u64>, word: &String, other: &str) -> Option<u64>
    requires { ¬ (text_order word.now other.now ≡ Equal) }
    ensures { result ≡ value_at text_order (entries counts.old) other.now }
{
    counts.remove(word);
    counts.get(other).copied()
}

/// Puts an item in, and answers another one as it stood there before.
pub fn item_beside<T: Ord + Copy + Drop>(
    set: &mut BTreeSet<T>,
    item: T,
    other: &T,
) -> Result<Option<T>, TryReserveError>
    requires { ¬ (T.cmp other.now item ≡ Equal) }
    ensures found { IfOk result (λ found. found ≡ item_at T.cmp (items set.old) other.now) }
    ensures unchanged { OnErr result (set.new ≡ set.old) }
{
    set.try_insert(item)?;
    Ok(set.get(other).copied())
}
