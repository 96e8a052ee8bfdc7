//! Calls on vectors that answer an error where memory is refused.
ghost use Rattle.std.specs.Prelude.{◌≡◌, ℕ, ◌+◌, ◌-◌, ◌^◌, ◌<◌, ◌≤◌, ◌⊎◌, List, [], ◌∷◌, ◌++◌, length, take, replicate, OnOk, OnErr, IfOk, IfErr, IsOk, vec_len, vec_capacity};
ghost use Rattle.std.specs.List.{AppendsResults, insert};
ghost use Rattle.fc_vec.specs.Vectors.{MayRefuse, IsExtended, IsFilled, IsCopiedUpTo};

use super::copies::push_repeated;
use fc_base::{Handle, TryClone, TryReserveError};

/// Calls on a vector that may grow it, each of which answers an error where memory is refused. None takes memory where what
/// it adds fits the room that is there. Upstream: `FallibleVec`.
pub trait FallibleVec<T>: Sized {
    /// What the vector takes its memory from.
    type Alloc;

    // The items, in order.
    ghost contents: { Self → List T };
    // How many items fit before the next request for memory.
    ghost room: { Self → ℕ };

    /// Makes room for `additional` more items. A reservation that fits, as that of no item, takes no memory and is `Ok`.
    /// Upstream: `FallibleVec::try_reserve`.
    ///
    /// # Errors
    /// `CapacityOverflow` exactly where the length plus `additional` passes `usize::MAX`, else `AllocError`. Items and room
    /// are then as before.
    fn try_reserve(&mut self, additional: usize) -> Result<(), TryReserveError>
        ensures contents { contents self.new ≡ contents self.old }
        ensures room { OnOk result (length (contents self.old) + additional ≤ room self.new) }
        ensures length { OnOk result (length (contents self.old) + additional < 2 ^ 64) }
        ensures kept { room self.old ≤ room self.new }
        ensures none { additional ≡ 0 → IsOk result }
        ensures fits { length (contents self.old) + additional ≤ room self.old → IsOk result × (room self.new ≡ room self.old) }
        ensures error { IfErr result (λ e. MayRefuse (room self.old) (length (contents self.old)) additional e × (room self.new ≡ room self.old)) };

    /// An empty vector with room for `capacity` items; none takes no memory. Upstream: `FallibleVec::try_with_capacity`.
    ///
    /// # Errors
    /// `AllocError` where the room was refused.
    fn try_with_capacity(alloc: Self::Alloc, capacity: usize) -> Result<Self, TryReserveError>
        ensures contents { IfOk result (λ v. contents v ≡ []) }
        ensures room { IfOk result (λ v. capacity ≤ room v) }
        ensures exact { IfOk result (λ v. room v ≡ capacity) }
        ensures none { capacity ≡ 0 → IsOk result }
        ensures error { IfErr result (λ e. e ≡ TryReserveError.AllocError) };

    /// Puts the item after the others. Upstream: `FallibleVec::try_push`.
    ///
    /// # Errors
    /// As `try_reserve` for one item. The vector is then as before, and the item is dropped.
    fn try_push(&mut self, elem: T) -> Result<(), TryReserveError>
    where
        T: Drop,
        ensures pushed { OnOk result (contents self.new ≡ contents self.old ++ elem ∷ []) }
        ensures kept { room self.old ≤ room self.new }
        ensures fits { length (contents self.old) < room self.old → IsOk result × (room self.new ≡ room self.old) }
        ensures error { IfErr result (λ e. MayRefuse (room self.old) (length (contents self.old)) 1 e × (contents self.new ≡ contents self.old) × (room self.new ≡ room self.old)) };

    /// Puts the item after the others. Upstream: `FallibleVec::try_push_give_back`.
    ///
    /// # Errors
    /// As `try_reserve` for one item. The vector is then as before, and the item comes back.
    fn try_push_give_back(&mut self, elem: T) -> Result<(), (T, TryReserveError)>
        ensures pushed { OnOk result (contents self.new ≡ contents self.old ++ elem ∷ []) }
        ensures kept { room self.old ≤ room self.new }
        ensures fits { length (contents self.old) < room self.old → IsOk result × (room self.new ≡ room self.old) }
        ensures given_back { IfErr result (λ e. e.0 ≡ elem) }
        ensures error { IfErr result (λ e. MayRefuse (room self.old) (length (contents self.old)) 1 e.1 × (contents self.new ≡ contents self.old) × (room self.new ≡ room self.old)) };

    /// Puts the item at `index`; those from there on move up by one place. The index is at most the length. Upstream:
    /// `FallibleVec::try_insert`, which panics past the end.
    ///
    /// # Errors
    /// As `try_reserve` for one item. The vector is then as before, and the item comes back.
    fn try_insert(&mut self, index: usize, element: T) -> Result<(), (T, TryReserveError)>
        requires { index ≤ length (contents self.old) }
        ensures inserted { OnOk result (contents self.new ≡ insert (contents self.old) index element) }
        ensures kept { room self.old ≤ room self.new }
        ensures fits { length (contents self.old) < room self.old → IsOk result × (room self.new ≡ room self.old) }
        ensures given_back { IfErr result (λ e. e.0 ≡ element) }
        ensures error { IfErr result (λ e. MayRefuse (room self.old) (length (contents self.old)) 1 e.1 × (contents self.new ≡ contents self.old) × (room self.new ≡ room self.old)) };

    /// Moves all items of `other` after the own ones; `other` is then empty and keeps its room. Upstream:
    /// `FallibleVec::try_append`.
    ///
    /// # Errors
    /// As `try_reserve` for the length of `other`. Both vectors are then as before.
    fn try_append(&mut self, other: &mut Self) -> Result<(), TryReserveError>
        ensures appended { OnOk result ((contents self.new ≡ contents self.old ++ contents other.old) × (contents other.new ≡ [])) }
        ensures kept { (room self.old ≤ room self.new) × (room other.new ≡ room other.old) }
        ensures none { contents other.old ≡ [] → IsOk result }
        ensures fits { length (contents self.old) + length (contents other.old) ≤ room self.old → IsOk result }
        ensures error { IfErr result (λ e. MayRefuse (room self.old) (length (contents self.old)) (length (contents other.old)) e × (contents self.new ≡ contents self.old) × (contents other.new ≡ contents other.old) × (room self.new ≡ room self.old)) };

    /// Cuts the vector to `new_len` items, or fills it up with what calls of `f` answer, one after another. Where the vector
    /// does not grow, `f` is not called; where it does, all room is taken before the first call. Upstream:
    /// `FallibleVec::try_resize_with`.
    ///
    /// # Errors
    /// `AllocError`, only where `new_len` is greater than the length. The vector is then as before, and `f` was not called.
    fn try_resize_with<F: FnMut() -> T>(
        &mut self,
        new_len: usize,
        f: F,
    ) -> Result<(), TryReserveError>
    where
        T: Drop,
        requires { length (contents self.old) < new_len → F.IsAlwaysCallable f }
        ensures filled { OnOk result (AppendsResults F.step (take new_len (contents self.old)) (contents self.new) f) }
        ensures length { OnOk result (length (contents self.new) ≡ new_len) }
        ensures kept { room self.old ≤ room self.new }
        ensures shorter { new_len ≤ length (contents self.old) → IsOk result × (room self.new ≡ room self.old) }
        ensures room { new_len ≤ room self.old → room self.new ≡ room self.old }
        ensures error { IfErr result (λ e. (room self.old < new_len) × (e ≡ TryReserveError.AllocError) × (contents self.new ≡ contents self.old) × (room self.new ≡ room self.old)) };

    /// Cuts the vector to `new_len` items, or fills it up with copies of `value`, of which the last is `value` itself. Upstream:
    /// `FallibleVec::try_resize_no_copy`.
    ///
    /// # Errors
    /// Only where `new_len` is greater than the length: `AllocError` where the room was refused, and the vector is as
    /// before; or the error of a refused copy, and the vector keeps the copies made before it. `value` is dropped.
    fn try_resize_no_copy(&mut self, new_len: usize, value: T) -> Result<(), TryReserveError>
    where
        T: TryClone,
        requires { T.can_clone }
        ensures cut { new_len ≤ length (contents self.old) → IsOk result × (contents self.new ≡ take new_len (contents self.old)) × (room self.new ≡ room self.old) }
        ensures filled { length (contents self.old) < new_len → OnOk result (IsFilled T.same (contents self.old) new_len value (contents self.new)) }
        ensures kept { room self.old ≤ room self.new }
        ensures room { new_len ≤ room self.old → room self.new ≡ room self.old }
        ensures error { IfErr result (λ e. ((room self.old < new_len) × (e ≡ TryReserveError.AllocError) × (contents self.new ≡ contents self.old) × (room self.new ≡ room self.old)) ⊎ IsCopiedUpTo T.same T.may_refuse e (contents self.old) (replicate (new_len - length (contents self.old) - 1) value) (contents self.new)) };

    /// Puts a copy of each item of `other`, by `try_clone`, after the own ones. Upstream:
    /// `FallibleVec::try_extend_from_slice_no_copy`.
    ///
    /// # Errors
    /// As `try_reserve` for the length of `other`, before the first copy, and the vector is as before; or the error of a
    /// refused copy, and the vector keeps the copies made before it.
    fn try_extend_from_slice_no_copy(&mut self, other: &[T]) -> Result<(), TryReserveError>
    where
        T: TryClone,
        requires { T.can_clone }
        ensures extended { OnOk result (IsExtended T.same (contents self.old) other.now (contents self.new)) }
        ensures kept { room self.old ≤ room self.new }
        ensures error { IfErr result (λ e. (MayRefuse (room self.old) (length (contents self.old)) (length other.now) e × (contents self.new ≡ contents self.old) × (room self.new ≡ room self.old)) ⊎ IsCopiedUpTo T.same T.may_refuse e (contents self.old) other.now (contents self.new)) };
}

// Makes room for so many more items; what fits takes no memory.
pub(crate) fn reserve<T, A: Handle>(
    v: &mut Vec<T, A>,
    additional: usize,
) -> Result<(), TryReserveError>
    ensures items { v.new.items ≡ v.old.items }
    ensures len { vec_len v.new ≡ vec_len v.old }
    ensures room { OnOk result (vec_len v.old + additional ≤ vec_capacity v.new) }
    ensures length { OnOk result (vec_len v.old + additional < 2 ^ 64) }
    ensures kept { vec_capacity v.old ≤ vec_capacity v.new }
    ensures fits { vec_len v.old + additional ≤ vec_capacity v.old → IsOk result × (vec_capacity v.new ≡ vec_capacity v.old) }
    ensures error { IfErr result (λ e. MayRefuse (vec_capacity v.old) (vec_len v.old) additional e × (vec_capacity v.new ≡ vec_capacity v.old)) }
{
    if additional <= v.capacity() - v.len() {
        return Ok(());
    }
    if usize::MAX - v.len() < additional {
        return Err(TryReserveError::CapacityOverflow);
    }
    v.reserve(additional)?;
    Ok(())
}

// Puts what so many calls of `f` answer after the items, for which there is room. std's own call does not say that the room stays.
fn push_results<T, A: Handle, F: FnMut() -> T>(v: &mut Vec<T, A>, count: usize, mut f: F)
    requires called { F.IsAlwaysCallable f }
    requires room { vec_len v.old + count ≤ vec_capacity v.old }
    ensures filled { AppendsResults F.step v.old.items v.new.items f }
    ensures length { vec_len v.new ≡ vec_len v.old + count }
    ensures room { vec_capacity v.new ≡ vec_capacity v.old }
{
    for i in 0..count {
        let item = f();
        v.push_reserved(item);
    }
}

impl<T, A: Handle> FallibleVec<T> for Vec<T, A> {
    type Alloc = A;

    ghost contents = { λ v. v.items };

    ghost room = { λ v. vec_capacity v };

    fn try_reserve(&mut self, additional: usize) -> Result<(), TryReserveError> {
        reserve(self, additional)
    }

    fn try_with_capacity(alloc: A, capacity: usize) -> Result<Vec<T, A>, TryReserveError> {
        Ok(Vec::with_capacity(alloc, capacity)?)
    }

    fn try_push(&mut self, elem: T) -> Result<(), TryReserveError>
    where
        T: Drop,
    {
        reserve(self, 1)?;
        self.push_reserved(elem);
        Ok(())
    }

    fn try_push_give_back(&mut self, elem: T) -> Result<(), (T, TryReserveError)> {
        if let Err(refused) = reserve(self, 1) {
            return Err((elem, refused));
        }
        self.push_reserved(elem);
        Ok(())
    }

    fn try_insert(&mut self, index: usize, element: T) -> Result<(), (T, TryReserveError)> {
        if let Err(refused) = reserve(self, 1) {
            return Err((element, refused));
        }
        match self.insert(index, element) {
            Ok(()) => Ok(()),
            Err(_refused) => unreachable!(),
        }
    }

    fn try_append(&mut self, other: &mut Vec<T, A>) -> Result<(), TryReserveError> {
        let more = other.len();
        reserve(self, more)?;
        self.append(other)?;
        Ok(())
    }

    fn try_resize_with<F: FnMut() -> T>(
        &mut self,
        new_len: usize,
        f: F,
    ) -> Result<(), TryReserveError>
    where
        T: Drop,
    {
        if new_len <= self.len() {
            self.truncate(new_len);
            return Ok(());
        }
        let lacking = new_len - self.len();
        reserve(self, lacking)?;
        push_results(self, lacking, f);
        Ok(())
    }

    fn try_resize_no_copy(&mut self, new_len: usize, value: T) -> Result<(), TryReserveError>
    where
        T: TryClone,
    {
        let len = self.len();
        if new_len <= len {
            self.truncate(new_len);
            return Ok(());
        }
        reserve(self, new_len - len)?;
        push_repeated(self, &value, new_len - len - 1)?;
        self.push_reserved(value);
        Ok(())
    }

    fn try_extend_from_slice_no_copy(&mut self, other: &[T]) -> Result<(), TryReserveError>
    where
        T: TryClone,
    {
        reserve(self, other.len())?;
        T::try_clone_all(other, self)
    }
}
