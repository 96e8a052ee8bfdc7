//! Collections made of what an iterator gives.
ghost use Rattle.std.specs.Prelude.{◌≡◌, ◌<◌, List, length, IfOk, IfErr, ⊤};
ghost use Rattle.std.specs.Iterator.{IsFiniteIterable};
ghost use Rattle.fc_base.specs.declared.try_reserve_error.TryReserveError.{TryReserveError};
ghost use Rattle.fc_vec.specs.Items.{GivesAll, GivesFirst};

use super::fallible_vec::FallibleVec;
use super::try_vec::TryVec;
use fc_base::TryReserveError;
use std::alloc::Global;

/// A type whose values can be made of the items of an iterator, where memory may be refused. Upstream: `TryFromIterator`.
pub trait TryFromIterator<I>: Sized {
    // Holds of a list of items and each value that may be made of it.
    ghost made_of: { List I → Self → Type 0 };
    // Holds of the items that were taken before an error, the one that was refused among them, and of each error that may then come.
    ghost may_refuse: { List I → TryReserveError → Type 0 } = { λ _ _. ⊤ };

    /// A value that holds all items which the iterator gives until its end. Upstream: `TryFromIterator::try_from_iterator`.
    ///
    /// # Errors
    /// Where memory was refused. What was made is then dropped, and so are the items, those that the iterator did not give yet too.
    fn try_from_iterator<T: IntoIterator<Item = I>>(
        alloc: Global,
        iter: T,
    ) -> Result<Self, TryReserveError>
        requires ends { IsFiniteIterable T.into_iter_gives T.IntoIter.can_next T.IntoIter.remaining iter }
        ensures made { IfOk result (λ made. (all : List I) × GivesAll T.into_iter_gives T.IntoIter.next_gives iter all × made_of all made) }
        ensures error { IfErr result (λ e. (taken : List I) × GivesFirst T.into_iter_gives T.IntoIter.next_gives iter taken × may_refuse taken e) };
}

/// A vector of the items that the iterator gives, in order, put in one after another.
///
/// # Errors
/// `AllocError` where the room for an item was refused.
impl<I: Drop> TryFromIterator<I> for Vec<I> {
    ghost made_of = { λ all v. v.items ≡ all };

    ghost may_refuse = { λ taken e. (0 < length taken) × (e ≡ TryReserveError.AllocError) };

    fn try_from_iterator<T: IntoIterator<Item = I>>(
        alloc: Global,
        iter: T,
    ) -> Result<Vec<I>, TryReserveError> {
        let mut made = Vec::new(alloc);
        for item in iter {
            made.try_push(item)?;
        }
        Ok(made)
    }
}

/// A vector of the items that the iterator gives, in order, put in one after another. Not in upstream, which has it for `Vec` alone.
///
/// # Errors
/// `AllocError` where the room for an item was refused.
impl<I: Drop> TryFromIterator<I> for TryVec<I> {
    ghost made_of = { λ all v. v.items ≡ all };

    ghost may_refuse = { λ taken e. (0 < length taken) × (e ≡ TryReserveError.AllocError) };

    fn try_from_iterator<T: IntoIterator<Item = I>>(
        alloc: Global,
        iter: T,
    ) -> Result<TryVec<I>, TryReserveError> {
        let made: Vec<I> = TryFromIterator::try_from_iterator(alloc, iter)?;
        Ok(TryVec::from(made))
    }
}

/// What becomes an iterator that ends, made into a collection of the items that it gives. Its call is `TryCollect::try_collect(items, alloc)`:
/// `items.try_collect(alloc)` is ambiguous with std's call of that name, and the compiler then names this one. Upstream: `TryCollect`.
pub trait TryCollect<I>: Sized {
    // The iterator that this becomes ends.
    ghost ends: { Self → Type 0 };
    // The iterator gives these items until its end.
    ghost gives_all: { Self → List I → Type 0 };
    // The iterator gives these items first.
    ghost gives_first: { Self → List I → Type 0 };

    /// The collection's `try_from_iterator` of this: called by its path, as `TryCollect::try_collect(items, alloc)`, since std's
    /// iterators have a call of this name. Upstream: `TryCollect::try_collect`.
    ///
    /// # Errors
    /// As that call.
    fn try_collect<C: TryFromIterator<I>>(self, alloc: Global) -> Result<C, TryReserveError>
        requires ends { ends self }
        ensures made { IfOk result (λ made. (all : List I) × gives_all self all × C.made_of all made) }
        ensures error { IfErr result (λ e. (taken : List I) × gives_first self taken × C.may_refuse taken e) };
}

impl<I, T: IntoIterator<Item = I>> TryCollect<I> for T {
    ghost ends = { λ s. IsFiniteIterable T.into_iter_gives T.IntoIter.can_next T.IntoIter.remaining s };

    ghost gives_all = { λ s all. GivesAll T.into_iter_gives T.IntoIter.next_gives s all };

    ghost gives_first = { λ s taken. GivesFirst T.into_iter_gives T.IntoIter.next_gives s taken };

    fn try_collect<C: TryFromIterator<I>>(self, alloc: Global) -> Result<C, TryReserveError> {
        C::try_from_iterator(alloc, self)
    }
}
