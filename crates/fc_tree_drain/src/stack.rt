//! A stack of as many items as a path has steps, which takes no memory.
ghost use Rattle.std.specs.Prelude.{◌≡◌, ◌+◌, ◌<◌, ◌≤◌, List, [], ◌∷◌, ◌++◌, length, slice_index_or};
ghost use Rattle.fc_base.specs.Sizes.{most_levels};

use arrayvec::ArrayVec;
use fc_tree_node::path::MAX_STEPS;
use std::marker::Model;

/// At most [`MAX_STEPS`] items, in order.
#[derive(Drop)]
pub struct Stack<T> {
    cells: ArrayVec<Option<T>, MAX_STEPS>,
}

impl<T> Model for Stack<T> {
    ghost use Rattle.std.specs.Prelude.{◌≡◌, ◌≤◌, List, length};
    ghost use Rattle.fc_base.specs.Sizes.{most_levels};
    ghost use Rattle.fc_tree_drain.specs.Stack.{AreAllPresent};
    ghost use Rattle.fc_tree_slots.specs.Cells.{present};

    ghost Value = { List T };

    ghost view = { λ s. present s.cells.items };

    ghost invariant = { λ s. AreAllPresent s.cells.items × (length s.cells.items ≤ most_levels) };
}

impl<T> Stack<T> {
    /// How many items there are.
    pub fn len(&self) -> usize
        ensures value { result ≡ length self.now }
        ensures fits { length self.now ≤ most_levels }
    {
        self.cells.len()
    }

    /// The item at `index`, from the bottom.
    pub fn get(&self, index: usize) -> &T
        requires { index < length self.now }
        ensures { result.now ≡ slice_index_or self.now index result.now }
    {
        match &self.cells.as_slice()[index] {
            Some(item) => item,
            None => unreachable!(),
        }
    }
}

impl<T: Drop> Stack<T> {
    /// A stack of no item.
    pub fn new() -> Stack<T>
        ensures { result ≡ [] }
    {
        Stack {
            cells: ArrayVec::new(),
        }
    }

    /// Puts an item on top.
    pub fn push(&mut self, item: T)
        requires { length self.old < most_levels }
        ensures { self.new ≡ self.old ++ item ∷ [] }
    {
        self.cells.push(Some(item));
    }

    /// Takes the item on top.
    pub fn pop(&mut self) -> T
        requires { 0 < length self.old }
        ensures { self.old ≡ self.new ++ result ∷ [] }
    {
        let Some(cell) = self.cells.pop() else {
            unreachable!()
        };
        let Some(item) = cell else { unreachable!() };
        item
    }

    /// Takes the item at the bottom.
    pub fn take_bottom(&mut self) -> T
        requires { 0 < length self.old }
        ensures { self.old ≡ result ∷ self.new }
    {
        let Some(item) = self.cells.remove(0) else {
            unreachable!()
        };
        item
    }
}
