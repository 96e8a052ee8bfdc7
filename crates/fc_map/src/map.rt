//! The ordered map: the root of a B-tree, if there is a pair, and how many pairs there are.
//!
//! Between two calls the pairs ascend strictly by the order of their keys, and the tree is sound (`fc_tree_node`). Each call of one key searches
//! first, which alone compares; what it then does at the path that the search filled is a call of the crates `fc_tree_..`.
ghost use Rattle.std.specs.Prelude.{◌≡◌, ◌↔◌, [], length, IsTrue};
ghost use Rattle.fc_base.specs.Ascending.{IsAscending};
ghost use Rattle.fc_map.specs.Entries.{entries, IsSoundMap};

mod append;
mod beside;
mod both;
mod bounds;
mod bulk_insert;
pub mod bulk_load;
mod clones;
mod compare;
mod copy;
mod copy_asked;
mod debug;
mod entry;
mod extend;
mod find;
mod first_last;
pub mod for_sets;
mod gaps;
mod get_mut;
mod index;
mod insert;
mod into_iter;
mod iter;
mod iter_mut;
mod lend;
mod load_asked;
mod made;
mod merge;
mod neighbours;
mod places;
mod pop_if;
mod range;
mod range_mut;
mod ready;
mod remove;
mod reservation;
mod retain;
mod retain_range;
mod split_off;

pub use both::insert_both;
pub use bounds::is_range;
pub use entry::{Entry, OccupiedEntry, ReadyEntry, VacantEntry};
use fc_base::Handle;
pub use fc_tree_cursor::key_range::KeyRange;
use fc_tree_node::node::Node;
pub use into_iter::{IntoIter, IntoKeys, IntoValues};
pub use iter::{Iter, Keys, Values};
pub use iter_mut::{IterMut, ValuesMut};
pub use range::Range;
pub use range_mut::RangeMut;
pub use reservation::Reservation;
use std::alloc::Global;
use std::marker::Model;

/// An ordered map: pairs in strictly ascending order of their keys, in a B-tree whose nodes hold 7 to 15 pairs. Only calls that
/// answer a `Result` take memory.
#[derive(Drop)]
pub struct BTreeMap<K: Ord, V, A: Handle = Global> {
    root: Option<Node<K, V, A>>,
    len: usize,
    alloc: A,
}

impl<K: Ord, V, A: Handle> Model for BTreeMap<K, V, A> {
    ghost use Rattle.std.specs.Prelude.{◌≡◌, length};
    ghost use Rattle.std.specs.Coded.{coded_option};
    ghost use base.Fml.{ftrue};
    ghost use borrow.Follows.Maybe.{bare};
    ghost use Rattle.fc_base.specs.Ascending.{IsAscending};
    ghost use Rattle.fc_tree_node.specs.contracts.node.Node as node;
    ghost use Rattle.fc_map.specs.Entries.{Map, entries, IsSoundMap};

    ghost Value = { Map K V A };

    ghost coded = { coded_option ((node.the_row (bare K K.code) (bare V V.code) (bare A A.code) (record { dealloc_token = λ _ _ _. ftrue })).coded) };

    ghost view = { λ m. m.root };

    ghost invariant = { λ m. IsAscending K.cmp (entries m.root) × IsSoundMap m.root × (m.len ≡ length (entries m.root)) };
}

impl<K: Ord, V, A: Handle> BTreeMap<K, V, A> {
    /// An empty map, which takes no memory. Later requests go to `alloc`. Upstream: `BTreeMap::new`.
    pub fn new(alloc: A) -> BTreeMap<K, V, A>
        ensures { entries result ≡ [] }
    {
        BTreeMap {
            root: None,
            len: 0,
            alloc,
        }
    }

    /// An empty map, as `new` makes it. Upstream: `BTreeMap::default`.
    pub fn default(alloc: A) -> BTreeMap<K, V, A>
        ensures { entries result ≡ [] }
    {
        BTreeMap::new(alloc)
    }

    /// The number of pairs. Upstream: `BTreeMap::len`.
    pub fn len(&self) -> usize
        ensures value { result ≡ length (entries self.now) }
        ensures ascending { IsAscending K.cmp (entries self.now) }
        ensures sound { IsSoundMap self.now }
    {
        self.len
    }

    /// Whether the map has no pair. Upstream: `BTreeMap::is_empty`.
    pub fn is_empty(&self) -> bool
        ensures { IsTrue result ↔ (entries self.now ≡ []) }
    {
        self.len == 0
    }
}

impl<K: Ord + Drop, V: Drop, A: Handle> BTreeMap<K, V, A> {
    /// Drops all pairs. It takes no memory. Upstream: `BTreeMap::clear`.
    pub fn clear(&mut self)
        ensures { entries self.new ≡ [] }
    {
        self.root = None;
        self.len = 0;
    }
}
