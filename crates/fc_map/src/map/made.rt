//! Empty maps: what `or_default` puts where no value is, and what `mem::try_take` leaves.
ghost use Rattle.std.specs.Prelude.{◌≡◌, []};
ghost use Rattle.fc_map.specs.Entries.{entries};

use super::BTreeMap;
use fc_base::Handle;
use std::alloc::AllocError;
use std::default::{Emptied, MadeWith};

/// An empty map, which takes no memory; its later requests go where those of the map go that holds it.
impl<K: Ord, V, A: Handle> MadeWith<A> for BTreeMap<K, V, A> {
    ghost is_made_with = { λ map. entries map ≡ [] };

    fn made_with(alloc: A) -> BTreeMap<K, V, A> {
        BTreeMap::new(alloc)
    }
}

/// An empty map, which takes its memory where the other does. It is never refused.
impl<K: Ord, V, A: Handle> Emptied for BTreeMap<K, V, A> {
    ghost is_emptied = { λ map. entries map ≡ [] };

    fn emptied(like: &BTreeMap<K, V, A>) -> Result<BTreeMap<K, V, A>, AllocError> {
        Ok(BTreeMap::new(like.alloc))
    }
}
