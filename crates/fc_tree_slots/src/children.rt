//! The children of a node, with the room for as many as it may have taken at the start.
//!
//! The moves of children aren't counted: each call that moves some passes a count that nobody reads.
ghost use Rattle.std.specs.Prelude.{◌≡◌, ◌+◌, ◌-◌, ◌<◌, ◌≤◌, [], ◌∷◌, ◌++◌, length, take, drop, slice_index_or, slice_set, insert, remove, IfOk};
ghost use Rattle.std.specs.Borrow.{sem};
ghost use Rattle.fc_base.specs.Sizes.{most_children};
ghost use Rattle.fc_tree_slots.specs.Lends.{lends_child};

use crate::slots::Slots;
use fc_base::{Asked, Count, Handle};
use std::alloc::{AllocError, Global};
use std::marker::Model;

mod push;

/// The most children of a node.
pub const MAX_CHILDREN: usize = 16;

/// At most as many items as a node has children, in order.
#[derive(Drop)]
pub struct Children<T, A: Handle = Global> {
    slots: Slots<T, MAX_CHILDREN, A>,
}

impl<T, A: Handle> Model for Children<T, A> {
    ghost use Rattle.std.specs.Prelude.{List};
    ghost use Rattle.std.specs.Coded.{coded_list};

    ghost Value = { List T };

    ghost coded = { coded_list T.code };

    ghost view = { λ c. c.slots };
}

impl<T, A: Handle> Children<T, A> {
    /// An empty list, with the room for them taken in one request.
    ///
    /// # Errors
    /// `AllocError` if the room is refused.
    pub fn try_new(alloc: A, asked: &mut Asked) -> Result<Self, AllocError>
        ensures empty { IfOk result (λ c. c ≡ []) }
        ensures requests { asked.new.requests ≡ asked.old.requests + 1 }
    {
        Ok(Children {
            slots: Slots::try_new(alloc, asked)?,
        })
    }

    /// How many items there are.
    pub fn len(&self) -> usize
        ensures value { result ≡ length self.now }
        ensures fits { length self.now ≤ most_children }
    {
        self.slots.len()
    }

    /// The item at `index`.
    pub fn get(&self, index: usize) -> &T
        requires { index < length self.now }
        ensures { result.now ≡ slice_index_or self.now index result.now }
    {
        self.slots.get(index)
    }

    /// The item at `index`, lent for writing: the list ends with what is written in its place.
    pub fn get_mut(&mut self, index: usize) -> &mut T
        requires { index < length self.old }
        ensures* writes_back { sem 𝓛 (lends_child T.row A.row A.Allocator self.entry index result) }
        ensures value { result.now ≡ slice_index_or self.old index result.now }
        ensures fits { length self.old ≤ most_children }
    {
        self.slots.get_mut(index)
    }

    /// Takes the item at `index` out, and moves those after it down.
    pub fn remove(&mut self, index: usize) -> T
        requires { index < length self.old }
        ensures value { result ≡ slice_index_or self.old index result }
        ensures items { self.new ≡ remove self.old index }
    {
        self.slots.remove(index, &mut Count::new())
    }

    /// Puts `item` in the place of the one at `index`, which is handed out.
    pub fn replace(&mut self, index: usize, item: T) -> T
        requires { index < length self.old }
        ensures value { result ≡ slice_index_or self.old index result }
        ensures items { self.new ≡ slice_set self.old index item }
    {
        self.slots.replace(index, item, &mut Count::new())
    }
}

impl<T: Drop, A: Handle> Children<T, A> {
    /// Puts `item` at `index`, and moves those from there on up.
    pub fn insert(&mut self, index: usize, item: T)
        requires in_bounds { index ≤ length self.old }
        requires room { length self.old < most_children }
        ensures { self.new ≡ insert self.old index item }
    {
        self.slots.insert(index, item, &mut Count::new());
    }

    /// Moves the items from `from` on to the end of `other`.
    pub fn move_tail(&mut self, from: usize, other: &mut Self)
        requires in_bounds { from ≤ length self.old }
        requires room { length other.old + (length self.old - from) ≤ most_children }
        ensures items { self.new ≡ take from self.old }
        ensures other { other.new ≡ other.old ++ drop from self.old }
    {
        self.slots
            .move_tail(from, &mut other.slots, &mut Count::new());
    }

    /// Moves the first `n` items to the end of `other`, and those after them down.
    pub fn move_front(&mut self, n: usize, other: &mut Self)
        requires in_bounds { n ≤ length self.old }
        requires room { length other.old + n ≤ most_children }
        ensures items { self.new ≡ drop n self.old }
        ensures other { other.new ≡ other.old ++ take n self.old }
    {
        self.slots
            .move_front(n, &mut other.slots, &mut Count::new());
    }

    /// Moves the last `n` items to the front of `other`, whose own move up.
    pub fn move_back(&mut self, n: usize, other: &mut Self)
        requires in_bounds { n ≤ length self.old }
        requires room { length other.old + n ≤ most_children }
        ensures items { self.new ≡ take (length self.old - n) self.old }
        ensures other { other.new ≡ drop (length self.old - n) self.old ++ other.old }
    {
        self.slots.move_back(n, &mut other.slots, &mut Count::new());
    }
}
