//! What callers prove of equality, order and hash of maps.
ghost use Rattle.std.specs.Prelude.{◌≡◌, ◌↔◌, IsTrue};
ghost use Rattle.std.specs.List.{AllZip};
ghost use Rattle.std.specs.declared.cmp.Ordering.TheVariants.{Equal};
ghost use Rattle.fc_map.specs.Entries.{entries};

use fc_map::map::BTreeMap;
use std::cmp::Ordering;
use std::hash::{Hash, Hasher};

/// Whether two maps are equal: exactly where they have as many pairs, with equal keys and equal values in order.
pub fn are_equal<K: Ord, V: PartialEq>(map: &BTreeMap<K, V>, other: &BTreeMap<K, V>) -> bool
    ensures { IsTrue result ↔ AllZip (λ p q. IsTrue (K.eq p.0 q.0) × IsTrue (V.eq p.1 q.1)) (entries map.now) (entries other.now) }
{
    *map == *other
}

/// The order of two maps, and whether they are equal: they are exactly where the order is `Equal`.
pub fn order_and_equality<K: Ord, V: Ord>(
    map: &BTreeMap<K, V>,
    other: &BTreeMap<K, V>,
) -> (Ordering, bool)
    ensures { IsTrue result.1 ↔ (result.0 ≡ Equal) }
{
    (map.cmp(other), *map == *other)
}

/// Feeds each of two maps to a hasher, and answers whether the maps are equal: two hashers that stood alike then stand alike again.
pub fn feed_both<K: Ord + Hash, V: Hash, H: Hasher>(
    map: &BTreeMap<K, V>,
    other: &BTreeMap<K, V>,
    hasher: &mut H,
    other_hasher: &mut H,
) -> bool
    requires { hasher.old ≡ other_hasher.old }
    ensures { IsTrue result → hasher.new ≡ other_hasher.new }
{
    map.hash(hasher);
    other.hash(other_hasher);
    *map == *other
}
