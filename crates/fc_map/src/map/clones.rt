//! Clones of maps, by std's `Clone` of their keys and values.
ghost use Rattle.std.specs.List.{AllZip};
ghost use Rattle.fc_tree_copy.specs.Copy.{AreSame};
ghost use Rattle.fc_map.specs.Entries.{entries};

use super::BTreeMap;
use fc_base::Handle;
use fc_tree_copy::clones::try_cloned;
use std::alloc::AllocError;

/// A map of a clone of each pair, in order, which takes its memory where the map does. It is for maps whose keys and values have std's
/// `Clone`, as in a struct that derives it; `try_clone` says more of an error.
///
/// # Errors
/// `AllocError` where a node or a clone of a key or a value was refused, and where clones of keys do not ascend as the keys do, which
/// std's `Clone` lets a type do. What was made by then is dropped.
impl<K: Ord + Clone, V: Clone, A: Handle> Clone for BTreeMap<K, V, A> {
    ghost is_clone = { λ map copy. AllZip (AreSame K.is_clone V.is_clone) (entries map) (entries copy) };

    fn clone(&self) -> Result<BTreeMap<K, V, A>, AllocError> {
        let root = try_cloned(self.alloc, self.iter())?;
        Ok(BTreeMap {
            root,
            len: self.len,
            alloc: self.alloc,
        })
    }
}
