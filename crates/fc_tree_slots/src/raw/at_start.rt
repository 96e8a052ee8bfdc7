// Places of a row, by where it begins.
ghost use Rattle.std.specs.Prelude.{◌≡◌, ◌+◌, ◌<◌, Some, None, length, get_or, slice_set};
ghost use Rattle.fc_tree_slots.specs.Cells.{IsPresent};

use super::Row;
use std::alloc::Allocator;

impl<T, A: Allocator> Row<T, A> {
    /// Where the row begins. A loop that writes keeps that at hand: the row is behind a `&mut`, and the compiler has to think that what is
    /// written may change it.
    pub(crate) fn start(&self) -> *mut T
        ensures { result ≡ self.now.start }
    {
        self.start as *mut T
    }

    /// Moves the item at `index` out.
    pub(crate) fn take_from(&mut self, start: *mut T, index: usize) -> T
        requires { (start ≡ self.old.start) × IsPresent self.old.held index }
        ensures { (get_or self.old.held index None ≡ Some result) × (self.new.held ≡ slice_set self.old.held index None) × (self.new.start ≡ self.old.start) × (self.new.alloc ≡ self.old.alloc) }
    {
        unsafe { start.add(index).read() }
    }

    /// Moves `item` into the place at `index`, which is empty.
    pub(crate) fn set_from(&mut self, start: *mut T, index: usize, item: T)
        requires { (start ≡ self.old.start) × (index < length self.old.held) × (get_or self.old.held index None ≡ None) }
        ensures { (self.new.held ≡ slice_set self.old.held index (Some item)) × (self.new.start ≡ self.old.start) × (self.new.alloc ≡ self.old.alloc) }
    {
        unsafe { start.add(index).write(item) }
    }

    /// Moves the item at `low + from + index` to `low + to + index`, which is empty once the item is out. The addresses are added up in this
    /// order so that LLVM sees in a loop over `index` how far apart the two are: where that is a constant, it makes one `memmove` of the loop.
    pub(crate) fn move_within(
        &mut self,
        start: *mut T,
        low: usize,
        from: usize,
        to: usize,
        index: usize,
    )
        requires { (start ≡ self.old.start) × IsPresent self.old.held (low + from + index) × (low + to + index < length self.old.held) × (get_or (slice_set self.old.held (low + from + index) None) (low + to + index) None ≡ None) }
        ensures { (self.new.held ≡ slice_set (slice_set self.old.held (low + from + index) None) (low + to + index) (get_or self.old.held (low + from + index) None)) × (self.new.start ≡ self.old.start) × (self.new.alloc ≡ self.old.alloc) }
    {
        unsafe {
            let low = start.add(low);
            let item = low.add(from).add(index).read();
            low.add(to).add(index).write(item)
        }
    }
}
