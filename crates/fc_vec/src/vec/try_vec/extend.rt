//! What an iterator gives, put after a vector's items.
ghost use Rattle.std.specs.Prelude.{◌≡◌, ◌≤◌, List, [], ◌∷◌, ◌++◌, length, OnOk, IfErr, vec_capacity};
ghost use Rattle.std.specs.Iterator.{IsFiniteIterable};
ghost use Rattle.fc_vec.specs.Items.{GivesAll, GivesFirst};
ghost use Rattle.fc_vec.specs.Vectors.{MayRefuse};

use super::super::fallible_vec::FallibleVec;
use super::TryVec;
use fc_base::{Handle, TryReserveError};

impl<T: Drop, A: Handle> TryVec<T, A> {
    /// Puts all items that the iterator gives after the own ones, one after another. Not in upstream: it is that of std's vector.
    ///
    /// # Errors
    /// At the first item that finds no room, as `push` of it. The items before it stay in the vector. It is dropped, and so is the iterator with the items
    /// after it.
    pub fn extend<I: IntoIterator<Item = T>>(&mut self, items: I) -> Result<(), TryReserveError>
        requires ends { IsFiniteIterable I.into_iter_gives I.IntoIter.can_next I.IntoIter.remaining items }
        ensures extended { OnOk result ((all : List T) × GivesAll I.into_iter_gives I.IntoIter.next_gives items all × (self.new.items ≡ self.old.items ++ all)) }
        ensures kept { self.old.room ≤ self.new.room }
        ensures error { IfErr result (λ e. (front : List T) × (item : T) × GivesFirst I.into_iter_gives I.IntoIter.next_gives items (front ++ item ∷ []) × (self.new.items ≡ self.old.items ++ front) × MayRefuse self.new.room (length self.new.items) 1 e) }
    {
        push_all(&mut self.inner, items)
    }
}

// Puts the items in, up to the first that finds no room.
fn push_all<T: Drop, A: Handle, I: IntoIterator<Item = T>>(
    v: &mut Vec<T, A>,
    items: I,
) -> Result<(), TryReserveError>
    requires ends { IsFiniteIterable I.into_iter_gives I.IntoIter.can_next I.IntoIter.remaining items }
    ensures extended { OnOk result ((all : List T) × GivesAll I.into_iter_gives I.IntoIter.next_gives items all × (v.new.items ≡ v.old.items ++ all)) }
    ensures kept { vec_capacity v.old ≤ vec_capacity v.new }
    ensures error { IfErr result (λ e. (front : List T) × (item : T) × GivesFirst I.into_iter_gives I.IntoIter.next_gives items (front ++ item ∷ []) × (v.new.items ≡ v.old.items ++ front) × MayRefuse (vec_capacity v.new) (length v.new.items) 1 e) }
{
    for item in items {
        v.try_push(item)?;
    }
    Ok(())
}
