//! What callers prove of an owned walk through its public clauses alone.
ghost use Rattle.std.specs.Prelude.{◌≡◌, List, [], ◌∷◌, ◌++◌, None, Some, IfOk};
ghost use Rattle.fc_map.specs.Entries.{entries};

use fc_map::map::BTreeMap;
use std::alloc::{AllocError, Global};

/// All pairs of the map, in order.
pub fn collected<K: Ord + Drop, V: Drop>(
    alloc: Global,
    map: BTreeMap<K, V>,
) -> Result<Vec<(K, V)>, AllocError>
    ensures { IfOk result (λ v. v.items ≡ entries map) }
{
    map.into_iter().collect(alloc)
}

/// The first pair, and the last of the others.
pub fn ends_of<K: Ord + Drop, V: Drop>(map: BTreeMap<K, V>) -> (Option<(K, V)>, Option<(K, V)>)
    ensures none { entries map ≡ [] → result ≡ (None, None) }
    ensures one { (p : K × V) → entries map ≡ p ∷ [] → result ≡ (Some p, None) }
    ensures more { (p q : K × V) (between : List (K × V)) → entries map ≡ p ∷ (between ++ q ∷ []) → result ≡ (Some p, Some q) }
{
    let mut walk = map.into_iter();
    let first = walk.next();
    let last = walk.next_back();
    (first, last)
}
