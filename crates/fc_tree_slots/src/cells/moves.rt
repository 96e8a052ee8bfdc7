// Loops that move items from cell to cell.
ghost use Rattle.std.specs.Prelude.{◌≡◌, ℕ, ◌+◌, ◌-◌, ◌^◌, ◌<◌, ◌≤◌, List, [], ◌++◌, length, take, drop};
ghost use Rattle.fc_tree_slots.specs.Cells.{row, HasRow};

use super::Cells;
use fc_base::Count;
use fc_base::count::add_moves;
use std::alloc::Allocator;

impl<T, A: Allocator> Cells<T, A> {
    /// Moves the items from `from` to `end` down by `by` cells, which are empty.
    pub(crate) fn shift_down(&mut self, from: usize, by: usize, end: usize, count: &mut Count)
        requires in_order { (by ≤ from) × (from ≤ end) }
        requires laid { HasRow self.old (from - by) by (end - from) }
        ensures items { (xs ys : List T) (m : ℕ) → self.old ≡ row xs by ys m → length xs ≡ from - by → end - from ≤ length ys → self.new ≡ row (xs ++ take (end - from) ys) by (drop (end - from) ys) m }
        ensures moves { count.new.moves ≡ count.old.moves + (end - from) }
        ensures comparisons { count.new.comparisons ≡ count.old.comparisons }
    {
        let places = &mut self.row;
        let start = places.start();
        for i in 0..end - from {
            add_moves(count, 1);
            places.move_within(start, from - by, by, 0, i);
        }
    }

    /// Moves the items from `from` on up by `by` cells, which are empty, so that they reach up to `end`.
    pub(crate) fn shift_up(&mut self, from: usize, by: usize, end: usize, count: &mut Count)
        requires in_order { from + by ≤ end }
        requires laid { (zs : List T) × (m : ℕ) × (self.old ≡ row zs by [] m) × (length zs ≡ end - by) }
        ensures items { (zs : List T) (m : ℕ) → self.old ≡ row zs by [] m → length zs ≡ end - by → self.new ≡ row (take from zs) by (drop from zs) m }
        ensures moves { count.new.moves ≡ count.old.moves + (end - by - from) }
        ensures comparisons { count.new.comparisons ≡ count.old.comparisons }
    {
        let places = &mut self.row;
        let start = places.start();
        for i in (0..end - by - from).rev() {
            add_moves(count, 1);
            places.move_within(start, from, 0, by, i);
        }
    }

    /// Moves the items from `from` on into the empty cells of another row from `to` to `end`.
    pub(crate) fn carry(
        &mut self,
        from: usize,
        target: &mut Cells<T, A>,
        to: usize,
        end: usize,
        count: &mut Count,
    )
        requires in_order { (to ≤ end) × (from + (end - to) < 2 ^ 64) }
        requires source_laid { HasRow self.old from 0 (end - to) }
        requires target_laid { HasRow target.old to (end - to) 0 }
        ensures source { (xs ys : List T) (m : ℕ) → self.old ≡ row xs 0 ys m → length xs ≡ from → end - to ≤ length ys → self.new ≡ row xs (end - to) (drop (end - to) ys) m }
        ensures target { (xs ys us vs : List T) (m w : ℕ) → self.old ≡ row xs 0 ys m → length xs ≡ from → end - to ≤ length ys → target.old ≡ row us (end - to) vs w → length us ≡ to → target.new ≡ row (us ++ take (end - to) ys) 0 vs w }
        ensures moves { count.new.moves ≡ count.old.moves + (end - to) }
        ensures comparisons { count.new.comparisons ≡ count.old.comparisons }
    {
        let sources = &mut self.row;
        let targets = &mut target.row;
        let first = sources.start();
        let first_target = targets.start();
        for i in to..end {
            let item = sources.take_from(first, from + (i - to));
            add_moves(count, 1);
            targets.set_from(first_target, i, item);
        }
    }
}
