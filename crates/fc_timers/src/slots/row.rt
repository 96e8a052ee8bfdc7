//! The slots in a row.
ghost use Rattle.std.specs.Prelude.{◌≡◌, ◌^◌, ◌<◌, length};
ghost use Rattle.fc_timers.specs.Heap.{helds};

use super::Slots;
use crate::slot::Slot;
use fc_base::Handle;

impl<T: Ord, V, A: Handle> Slots<T, V, A> {
    /// The slots, from the first to the last.
    pub(crate) fn row(&self) -> &[Slot<T, V>]
        ensures slots { helds result.now ≡ self.now.slots }
        ensures length { length result.now < 2 ^ 64 }
    {
        self.slots.as_slice()
    }
}
