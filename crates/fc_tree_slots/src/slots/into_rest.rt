//! A list given out from its ends, and one in the room of what was given out.
ghost use Rattle.std.specs.Prelude.{◌≡◌, []};
ghost use Rattle.fc_tree_slots.specs.Cells.{IsPacked};

use super::Slots;
use crate::cells::Cells;
use crate::rest::Rest;
use std::alloc::Allocator;

impl<T, const N: usize, A: Allocator> Slots<T, N, A> {
    /// The items, to be taken from either end. It takes no memory and moves none of them.
    pub fn into_rest(self) -> Rest<T, N, A>
        ensures { result ≡ self }
    {
        let Slots { cells, len } = self;
        Rest::over(cells, len)
    }

    // No item, in the room of these cells, of which none holds one.
    pub(crate) fn over(cells: Cells<T, A>) -> Self
        requires { IsPacked cells 0 N }
        ensures { result ≡ [] }
    {
        Slots { cells, len: 0 }
    }
}
