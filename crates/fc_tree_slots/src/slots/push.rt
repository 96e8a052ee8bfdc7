//! An item put at the end.
ghost use Rattle.std.specs.Prelude.{◌≡◌, ◌+◌, ◌<◌, [], ◌∷◌, ◌++◌, length};

use super::Slots;
use fc_base::Count;
use std::alloc::Allocator;

impl<T, const N: usize, A: Allocator> Slots<T, N, A> {
    /// Puts `item` after those that are there.
    pub fn push(&mut self, item: T, count: &mut Count)
        requires { length self.old < N }
        ensures items { self.new ≡ self.old ++ item ∷ [] }
        ensures moves { count.new.moves ≡ count.old.moves + 1 }
        ensures comparisons { count.new.comparisons ≡ count.old.comparisons }
    {
        self.cells.set(self.len, item, count);
        self.len += 1;
    }
}
