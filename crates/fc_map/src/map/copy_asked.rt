//! Copies of maps whose requests for memory are counted.
ghost use Rattle.std.specs.Prelude.{◌≡◌, ◌+◌, ◌≤◌, true, IfOk, MatchResult};
ghost use Rattle.std.specs.List.{AllZip};
ghost use Rattle.fc_base.specs.Ascending.{IsAscending};
ghost use Rattle.fc_base.specs.Copies.{MayRefuseCopies, MayRefusePair};
ghost use Rattle.fc_tree_copy.specs.Copy.{AreSame};
ghost use Rattle.fc_map.specs.Entries.{entries, IsSoundMap};
ghost use Rattle.fc_map.specs.WholeRequests.{blocks_in};

use super::BTreeMap;
use fc_base::{Asked, Handle, TryClone, TryReserveError};
use fc_tree_copy::tree::try_copy_tree;

impl<K: Ord + TryClone, V: TryClone, A: Handle> BTreeMap<K, V, A> {
    /// `try_clone`, with its requests for memory added to `asked`: one for each block of memory that the map has, and its copy has as many. What copies of keys
    /// and values ask for is not among them. Where it is refused, no more.
    ///
    /// # Errors
    /// As `try_clone`.
    pub fn try_clone_asked(&self, asked: &mut Asked) -> Result<BTreeMap<K, V, A>, TryReserveError>
        requires { K.can_clone × V.can_clone × ((a b : K) → K.same a b → K.eq a b ≡ true) }
        ensures copied { MatchResult result (λ copy. AllZip (AreSame K.same V.same) (entries self.now) (entries copy)) (MayRefuseCopies (MayRefusePair K.may_refuse V.may_refuse) (entries self.now)) }
        ensures ascending { IfOk result (λ copy. IsAscending K.cmp (entries copy)) }
        ensures sound { IfOk result (λ copy. IsSoundMap copy) }
        ensures blocks { IfOk result (λ copy. blocks_in copy ≡ blocks_in self.now) }
        ensures requests { IfOk result (λ _. asked.new.requests ≡ asked.old.requests + blocks_in self.now) }
        ensures at_most { asked.new.requests ≤ asked.old.requests + blocks_in self.now }
    {
        let root = try_copy_tree(self.alloc, &self.root, asked)?;
        Ok(BTreeMap {
            root,
            len: self.len,
            alloc: self.alloc,
        })
    }
}
