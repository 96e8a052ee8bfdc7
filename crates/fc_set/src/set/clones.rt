//! Clones of sets, by std's `Clone` of their items, and empty sets as `or_default` and `mem::try_take` make them.
ghost use Rattle.std.specs.Prelude.{◌≡◌, []};
ghost use Rattle.std.specs.List.{AllZip};
ghost use Rattle.fc_set.specs.Items.{items};

use super::BTreeSet;
use fc_base::Handle;
use fc_map::map::for_sets;
use std::alloc::AllocError;
use std::default::{Emptied, MadeWith};

/// A set of a clone of each item, in order, which takes its memory where the set does. It is for sets whose items have std's `Clone`, as
/// in a struct that derives it; `try_clone` says more of an error.
///
/// # Errors
/// `AllocError` where a node or a clone of an item was refused, and where the clones do not ascend as the items do, which std's `Clone`
/// lets a type do. What was made by then is dropped.
impl<T: Ord + Clone, A: Handle> Clone for BTreeSet<T, A> {
    ghost is_clone = { λ set copy. AllZip T.is_clone (items set) (items copy) };

    fn clone(&self) -> Result<BTreeSet<T, A>, AllocError> {
        let map = self.map.clone()?;
        Ok(BTreeSet { map })
    }
}

/// An empty set, which takes no memory; its later requests go where those of the map go that holds it.
impl<T: Ord, A: Handle> MadeWith<A> for BTreeSet<T, A> {
    ghost is_made_with = { λ set. items set ≡ [] };

    fn made_with(alloc: A) -> BTreeSet<T, A> {
        BTreeSet::new(alloc)
    }
}

/// An empty set, which takes its memory where the other does. It is never refused.
impl<T: Ord, A: Handle> Emptied for BTreeSet<T, A> {
    ghost is_emptied = { λ set. items set ≡ [] };

    fn emptied(like: &BTreeSet<T, A>) -> Result<BTreeSet<T, A>, AllocError> {
        Ok(BTreeSet::new(for_sets::allocator(&like.map)))
    }
}
