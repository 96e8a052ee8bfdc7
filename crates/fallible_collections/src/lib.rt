//! Collections in which every call that takes memory answers a `Result`, and a refused call does no harm.
//!
//! `btree` has the ordered map and the ordered set, `hashmap` and `hashset` a map and a set by hashes, `vec` vectors, collections that are made of an
//! iterator's items, and bounded reading (`vec::std_io`), `boxed` and `rc` boxes and shared values, `format` printing, `command` a world of maps
//! and sets behind commands and lines of text. The error of a refused call is `TryReserveError`; `TryClone` is for types whose copies may be
//! refused; a `Query` is what keys are looked up by; a `Handle` is what memory is taken from. `count` counts comparisons and moves for contracts alone.
#![tactic(auto)]

pub mod btree;
pub mod count;
pub mod format;
pub mod vec;

pub use fc_base::{
    FallibleBox, FallibleRc, Handle, Query, TryBox, TryClone, TryReserveError, boxed, handle,
    query, rc, try_clone, try_reserve_error,
};
pub use fc_command::command;
pub use fc_hash::{TryHashMap, TryHashSet, hashmap, hashset};
pub use vec::std_io::{TryRead, try_read_up_to};
pub use vec::{
    FallibleCopyVec, FallibleVec, Iter, TryCollect, TryFromIterator, TryVec, try_from_elem,
};
