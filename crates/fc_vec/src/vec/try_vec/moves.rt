//! A vector's items moved to other places of it, or written over, in place.
ghost use Rattle.std.specs.Prelude.{◌≡◌, ◌-◌, ◌<◌, ◌≤◌, ◌++◌, length, take, drop, replicate, reverse as reversed};
ghost use Rattle.std.specs.List.{AllWithin, HoldsAt, swap};

use super::TryVec;
use fc_base::Handle;

impl<T, A: Handle> TryVec<T, A> {
    /// Exchanges the items at two places, which are below the length. Upstream: `swap` of the slice, which panics from the length on.
    pub fn swap(&mut self, first: usize, second: usize)
        requires first_below { first < length self.old.items }
        requires second_below { second < length self.old.items }
        ensures items { self.new.items ≡ swap self.old.items first second }
        ensures length { length self.new.items ≡ length self.old.items }
        ensures room { self.new.room ≡ self.old.room }
    {
        self.inner.swap(first, second);
    }

    /// Turns the items round: the last one is then the first. Upstream: `reverse` of the slice.
    pub fn reverse(&mut self)
        ensures items { self.new.items ≡ reversed self.old.items }
        ensures length { length self.new.items ≡ length self.old.items }
        ensures room { self.new.room ≡ self.old.room }
    {
        self.inner.reverse();
    }

    /// Moves the first `mid` items, which are no more than the length, after the others. Upstream: `rotate_left` of the slice, which panics past the
    /// length.
    pub fn rotate_left(&mut self, mid: usize)
        requires { mid ≤ length self.old.items }
        ensures items { self.new.items ≡ drop mid self.old.items ++ take mid self.old.items }
        ensures length { length self.new.items ≡ length self.old.items }
        ensures room { self.new.room ≡ self.old.room }
    {
        self.inner.rotate_left(mid);
    }

    /// Moves the last `count` items, which are no more than the length, before the others. Upstream: `rotate_right` of the slice, which panics past
    /// the length.
    pub fn rotate_right(&mut self, count: usize)
        requires { count ≤ length self.old.items }
        ensures items { self.new.items ≡ drop (length self.old.items - count) self.old.items ++ take (length self.old.items - count) self.old.items }
        ensures length { length self.new.items ≡ length self.old.items }
        ensures room { self.new.room ≡ self.old.room }
    {
        self.inner.rotate_right(count);
    }

    /// Writes clones of the value over all items, and at the last place the value itself. It is one whose `clone` is never refused. Upstream: `fill` of the
    /// slice.
    pub fn fill(&mut self, value: T)
    where
        T: Clone,
        requires { T.is_infallible value }
        ensures items { ((y : T) → T.is_clone value y → y ≡ value) → self.new.items ≡ replicate (length self.old.items) value }
        ensures clones { AllWithin (T.is_clone value) self.new.items 0 (length self.old.items - 1) }
        ensures last { 0 < length self.old.items → HoldsAt (λ y. y ≡ value) self.new.items (length self.old.items - 1) }
        ensures length { length self.new.items ≡ length self.old.items }
        ensures room { self.new.room ≡ self.old.room }
    {
        self.inner.fill(value);
    }
}
