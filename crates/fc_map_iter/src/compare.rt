//! Two walks compared: equality and order of the pairs that they give, each by its key and then by its value.
ghost use Rattle.std.specs.Prelude.{◌≡◌, ◌&&◌};
ghost use Rattle.std.specs.Cmp.Lexicographic.{pointwise, slice_cmp, slice_partial_cmp};
ghost use Rattle.std.specs.Ordering.{ordering_then, partial_ordering_then};
ghost use Rattle.fc_map_iter.specs.Compare.{pair_eq, pair_cmp, pair_partial_cmp};

use crate::iter::Iter;
use fc_base::Handle;
use std::cmp::Ordering;

/// Whether both walks give as many pairs, equal in order.
pub fn are_equal<K: PartialEq, V: PartialEq, A: Handle>(
    mine: Iter<'_, K, V, A>,
    theirs: Iter<'_, K, V, A>,
) -> bool
    ensures { result ≡ pointwise (pair_eq K.eq V.eq) mine.entry theirs.entry }
{
    if mine.len() != theirs.len() {
        return false;
    }
    let mut mine = mine;
    let mut theirs = theirs;
    'pairs: while let Some((key, value)) = mine.next() {
        let (other_key, other_value) = theirs.next().unwrap();
        if !is_equal_pair(key, value, other_key, other_value) {
            return false;
        }
    }
    true
}

// Whether the keys and the values are equal.
fn is_equal_pair<K: PartialEq, V: PartialEq>(
    key: &K,
    value: &V,
    other_key: &K,
    other_value: &V,
) -> bool
    ensures { result ≡ (K.eq key.now other_key.now && V.eq value.now other_value.now) }
{
    key.eq(other_key) && value.eq(other_value)
}

/// The order of the pairs that both walks give, or `None` where the first that are not equal do not compare.
pub fn partial_order<K: PartialOrd, V: PartialOrd, A: Handle>(
    mine: Iter<'_, K, V, A>,
    theirs: Iter<'_, K, V, A>,
) -> Option<Ordering>
    ensures { result ≡ slice_partial_cmp (pair_partial_cmp K.partial_cmp V.partial_cmp) mine.entry theirs.entry }
{
    let mut mine = mine;
    let mut theirs = theirs;
    'pairs: while let Some((key, value)) = mine.next() {
        let Some((other_key, other_value)) = theirs.next() else {
            return Some(Ordering::Greater);
        };
        match partial_pair_order(key, value, other_key, other_value) {
            None => return None,
            Some(found) => match found {
                Ordering::Equal => {}
                Ordering::Less => return Some(Ordering::Less),
                Ordering::Greater => return Some(Ordering::Greater),
            },
        }
    }
    match theirs.next() {
        Some(_) => Some(Ordering::Less),
        None => Some(Ordering::Equal),
    }
}

// The order of two pairs: that of the keys, and where they are equal that of the values.
fn partial_pair_order<K: PartialOrd, V: PartialOrd>(
    key: &K,
    value: &V,
    other_key: &K,
    other_value: &V,
) -> Option<Ordering>
    ensures { result ≡ partial_ordering_then (K.partial_cmp key.now other_key.now) (V.partial_cmp value.now other_value.now) }
{
    match key.partial_cmp(other_key) {
        None => None,
        Some(found) => match found {
            Ordering::Equal => value.partial_cmp(other_value),
            Ordering::Less => Some(Ordering::Less),
            Ordering::Greater => Some(Ordering::Greater),
        },
    }
}

/// The order of the pairs that both walks give.
pub fn order<K: Ord, V: Ord, A: Handle>(
    mine: Iter<'_, K, V, A>,
    theirs: Iter<'_, K, V, A>,
) -> Ordering
    ensures { result ≡ slice_cmp (pair_cmp K.cmp V.cmp) mine.entry theirs.entry }
{
    let mut mine = mine;
    let mut theirs = theirs;
    'pairs: while let Some((key, value)) = mine.next() {
        let Some((other_key, other_value)) = theirs.next() else {
            return Ordering::Greater;
        };
        match pair_order(key, value, other_key, other_value) {
            Ordering::Equal => {}
            Ordering::Less => return Ordering::Less,
            Ordering::Greater => return Ordering::Greater,
        }
    }
    match theirs.next() {
        Some(_) => Ordering::Less,
        None => Ordering::Equal,
    }
}

// As `partial_pair_order`.
fn pair_order<K: Ord, V: Ord>(key: &K, value: &V, other_key: &K, other_value: &V) -> Ordering
    ensures { result ≡ ordering_then (K.cmp key.now other_key.now) (V.cmp value.now other_value.now) }
{
    match key.cmp(other_key) {
        Ordering::Equal => value.cmp(other_value),
        Ordering::Less => Ordering::Less,
        Ordering::Greater => Ordering::Greater,
    }
}
