//! A list of at most `N` items, with the room for them taken at the start.
//!
//! These calls alone add to a count's moves. Only the type's invariant speaks of the room, so that a contract above never
//! does, and an insertion into a list of fewer than `N` items can't be refused.
ghost use Rattle.std.specs.Prelude.{◌≡◌, ℕ, ◌+◌, ◌-◌, ◌^◌, ◌<◌, ◌≤◌, List, [], ◌∷◌, ◌++◌, length, take, drop, slice_index_or, slice_set, insert, remove, IfOk};
ghost use Rattle.std.specs.Borrow.{sem};
ghost use Rattle.fc_tree_slots.specs.Lends.{lends_slot};
ghost use Rattle.fc_tree_slots.specs.Cells.{row, HasRow};

use crate::cells::Cells;
use fc_base::asked::add_request;
use fc_base::count::add_moves;
use fc_base::{Asked, Count};
use std::alloc::{AllocError, Allocator, Global};
use std::marker::Model;

mod into_rest;
mod push;

/// At most `N` items, in order. Only `try_new` takes memory.
///
/// Each call that moves items adds its moves to a count: a move is an item written into a place, or handed out.
pub struct Slots<T, const N: usize, A: Allocator = Global> {
    cells: Cells<T, A>,
    len: usize,
}

impl<T, const N: usize, A: Allocator> Model for Slots<T, N, A> {
    ghost use Rattle.std.specs.Prelude.{List};
    ghost use Rattle.std.specs.Coded.{coded_list};
    ghost use Rattle.fc_tree_slots.specs.Cells.{present, IsPacked};

    ghost Value = { List T };

    ghost coded = { coded_list T.code };

    ghost view = { λ s. present s.cells };

    ghost invariant = { λ s. IsPacked s.cells s.len N };
}

impl<T: Drop, const N: usize, A: Allocator> Drop for Slots<T, N, A> {
    fn drop(self) {
        let Slots { mut cells, len } = self;
        for i in 0..len {
            drop(cells.take(i));
        }
        cells.free(N);
    }
}

impl<T, const N: usize, A: Allocator> Slots<T, N, A> {
    /// An empty list, with the room for `N` items taken in one request, which is added to `asked`. Items without size need no room, and their request,
    /// which is not made, counts as one.
    ///
    /// # Errors
    /// `AllocError` if the room is refused.
    pub fn try_new(alloc: A, asked: &mut Asked) -> Result<Self, AllocError>
        ensures empty { IfOk result (λ s. s ≡ []) }
        ensures requests { asked.new.requests ≡ asked.old.requests + 1 }
    {
        add_request(asked);
        Ok(Slots {
            cells: Cells::try_new(alloc, N)?,
            len: 0,
        })
    }

    /// How many items there are.
    pub fn len(&self) -> usize
        ensures value { result ≡ length self.now }
        ensures fits { length self.now ≤ N }
    {
        self.len
    }

    /// The item at `index`.
    pub fn get(&self, index: usize) -> &T
        requires { index < length self.now }
        ensures { result.now ≡ slice_index_or self.now index result.now }
    {
        self.cells.get(index)
    }

    /// The items, in order.
    pub fn as_slice(&self) -> &[T]
        ensures { result.now ≡ self.now }
    {
        self.cells.as_slice(self.len)
    }

    /// The item at `index`, lent for writing: the list ends with what is written in its place.
    pub fn get_mut(&mut self, index: usize) -> &mut T
        requires { index < length self.old }
        ensures* writes_back { sem 𝓛 (lends_slot T.row A.row A.Allocator N.row self.entry index result) }
        ensures value { result.now ≡ slice_index_or self.old index result.now }
        ensures fits { length self.old ≤ N }
    {
        self.cells.get_mut(index)
    }

    /// Takes the item at `index` out, and moves those after it down.
    pub fn remove(&mut self, index: usize, count: &mut Count) -> T
        requires { index < length self.old }
        ensures value { result ≡ slice_index_or self.old index result }
        ensures items { self.new ≡ remove self.old index }
        ensures moves { count.new.moves ≡ count.old.moves + (length self.old - index) }
        ensures comparisons { count.new.comparisons ≡ count.old.comparisons }
    {
        add_moves(count, 1);
        let item = self.cells.take(index);
        shift_down(&mut self.cells, index + 1, 1, self.len, count);
        self.len -= 1;
        item
    }

    /// Puts `item` in the place of the one at `index`, which is handed out.
    pub fn replace(&mut self, index: usize, item: T, count: &mut Count) -> T
        requires { index < length self.old }
        ensures value { result ≡ slice_index_or self.old index result }
        ensures items { self.new ≡ slice_set self.old index item }
        ensures moves { count.new.moves ≡ count.old.moves + 2 }
        ensures comparisons { count.new.comparisons ≡ count.old.comparisons }
    {
        add_moves(count, 1);
        let old = self.cells.take(index);
        self.cells.set(index, item, count);
        old
    }
}

impl<T: Drop, const N: usize, A: Allocator> Slots<T, N, A> {
    /// Puts `item` at `index`, and moves those from there on up.
    pub fn insert(&mut self, index: usize, item: T, count: &mut Count)
        requires in_bounds { index ≤ length self.old }
        requires room { length self.old < N }
        ensures items { self.new ≡ insert self.old index item }
        ensures moves { count.new.moves ≡ count.old.moves + (length self.old - index + 1) }
        ensures comparisons { count.new.comparisons ≡ count.old.comparisons }
    {
        let end = self.len + 1;
        shift_up(&mut self.cells, index, 1, end, count);
        self.cells.set(index, item, count);
        self.len = end;
    }

    /// Moves the items from `from` on to the end of `other`.
    pub fn move_tail(&mut self, from: usize, other: &mut Self, count: &mut Count)
        requires in_bounds { from ≤ length self.old }
        requires room { length other.old + (length self.old - from) ≤ N }
        ensures items { self.new ≡ take from self.old }
        ensures other { other.new ≡ other.old ++ drop from self.old }
        ensures moves { count.new.moves ≡ count.old.moves + (length self.old - from) }
        ensures comparisons { count.new.comparisons ≡ count.old.comparisons }
    {
        let end = other.len + (self.len - from);
        carry(
            &mut self.cells,
            from,
            &mut other.cells,
            other.len,
            end,
            count,
        );
        self.len = from;
        other.len = end;
    }

    /// Moves the first `n` items to the end of `other`, and those after them down.
    pub fn move_front(&mut self, n: usize, other: &mut Self, count: &mut Count)
        requires in_bounds { n ≤ length self.old }
        requires room { length other.old + n ≤ N }
        ensures items { self.new ≡ drop n self.old }
        ensures other { other.new ≡ other.old ++ take n self.old }
        ensures moves { count.new.moves ≡ count.old.moves + length self.old }
        ensures comparisons { count.new.comparisons ≡ count.old.comparisons }
    {
        let end = other.len + n;
        carry(&mut self.cells, 0, &mut other.cells, other.len, end, count);
        shift_down(&mut self.cells, n, n, self.len, count);
        self.len -= n;
        other.len = end;
    }

    /// Moves the last `n` items to the front of `other`, whose own move up.
    pub fn move_back(&mut self, n: usize, other: &mut Self, count: &mut Count)
        requires in_bounds { n ≤ length self.old }
        requires room { length other.old + n ≤ N }
        ensures items { self.new ≡ take (length self.old - n) self.old }
        ensures other { other.new ≡ drop (length self.old - n) self.old ++ other.old }
        ensures moves { count.new.moves ≡ count.old.moves + (length other.old + n) }
        ensures comparisons { count.new.comparisons ≡ count.old.comparisons }
    {
        let end = other.len + n;
        let from = self.len - n;
        shift_up(&mut other.cells, 0, n, end, count);
        carry(&mut self.cells, from, &mut other.cells, 0, n, count);
        self.len = from;
        other.len = end;
    }
}

// Moves the items from `from` to `end` down by `by` cells, which are empty.
fn shift_down<T, A: Allocator>(
    cells: &mut Cells<T, A>,
    from: usize,
    by: usize,
    end: usize,
    count: &mut Count,
)
    requires in_order { (by ≤ from) × (from ≤ end) }
    requires laid { HasRow cells.old (from - by) by (end - from) }
    ensures items { (xs ys : List T) (m : ℕ) → cells.old ≡ row xs by ys m → length xs ≡ from - by → end - from ≤ length ys → cells.new ≡ row (xs ++ take (end - from) ys) by (drop (end - from) ys) m }
    ensures moves { count.new.moves ≡ count.old.moves + (end - from) }
    ensures comparisons { count.new.comparisons ≡ count.old.comparisons }
{
    cells.shift_down(from, by, end, count);
}

// Moves the items from `from` on up by `by` cells, which are empty, so that they reach up to `end`.
fn shift_up<T, A: Allocator>(
    cells: &mut Cells<T, A>,
    from: usize,
    by: usize,
    end: usize,
    count: &mut Count,
)
    requires in_order { from + by ≤ end }
    requires laid { (zs : List T) × (m : ℕ) × (cells.old ≡ row zs by [] m) × (length zs ≡ end - by) }
    ensures items { (zs : List T) (m : ℕ) → cells.old ≡ row zs by [] m → length zs ≡ end - by → cells.new ≡ row (take from zs) by (drop from zs) m }
    ensures moves { count.new.moves ≡ count.old.moves + (end - by - from) }
    ensures comparisons { count.new.comparisons ≡ count.old.comparisons }
{
    cells.shift_up(from, by, end, count);
}

// Moves the items from `from` on into the empty cells of another row from `to` to `end`.
fn carry<T, A: Allocator>(
    source: &mut Cells<T, A>,
    from: usize,
    target: &mut Cells<T, A>,
    to: usize,
    end: usize,
    count: &mut Count,
)
    requires in_order { (to ≤ end) × (from + (end - to) < 2 ^ 64) }
    requires source_laid { HasRow source.old from 0 (end - to) }
    requires target_laid { HasRow target.old to (end - to) 0 }
    ensures source { (xs ys : List T) (m : ℕ) → source.old ≡ row xs 0 ys m → length xs ≡ from → end - to ≤ length ys → source.new ≡ row xs (end - to) (drop (end - to) ys) m }
    ensures target { (xs ys us vs : List T) (m w : ℕ) → source.old ≡ row xs 0 ys m → length xs ≡ from → end - to ≤ length ys → target.old ≡ row us (end - to) vs w → length us ≡ to → target.new ≡ row (us ++ take (end - to) ys) 0 vs w }
    ensures moves { count.new.moves ≡ count.old.moves + (end - to) }
    ensures comparisons { count.new.comparisons ≡ count.old.comparisons }
{
    source.carry(from, target, to, end, count);
}
