//! Rows taken out by a second key.
ghost use Rattle.std.specs.Prelude.{◌≡◌, not, filter, length};
ghost use Rattle.fc_base.specs.Ascending.{IsAscending};
ghost use Rattle.fc_index.specs.Rows.{lies};

use super::Table;
use fc_base::Handle;
use std::ops::Bound;

impl<I: Ord + Copy, A: Ord + Copy, B: Ord + Copy, V: Drop, H: Handle> Table<I, A, B, V, H> {
    /// Takes all rows out whose first keys lie within the bounds, drops them, and answers how many they were. Bounds that are no range
    /// take nothing out. It takes no memory, and costs as much as so many calls of `remove`.
    pub fn remove_first_range(&mut self, bounds: (Bound<A>, Bound<A>)) -> usize
        ensures rest { self.new ≡ filter (λ e. not (lies A.cmp bounds.0 bounds.1 e.1.first)) self.old }
        ensures count { result ≡ length (filter (λ e. lies A.cmp bounds.0 bounds.1 e.1.first) self.old) }
        ensures ascending { IsAscending I.cmp self.new }
    {
        let all = self.iter().len();
        'rows: while let Some(item) = self.by_first(bounds).next().copied() {
            drop(self.remove(item.1));
        }
        all - self.len()
    }
}
