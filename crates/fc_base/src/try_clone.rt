//! Copies that may be refused.
ghost use Rattle.std.specs.Prelude.{◌≡◌, ◌+◌, ◌≤◌, length, MatchResult, OnOk, IfErr, ⊤, vec_len, vec_capacity};
ghost use Rattle.fc_base.specs.declared.try_reserve_error.TryReserveError.{TryReserveError};
ghost use Rattle.fc_base.specs.CopiedLists.{IsExtended, IsCopiedUpTo};

use crate::handle::Handle;
use crate::try_reserve_error::TryReserveError;
use at_once::copy_all;
pub use by_clone::ByClone;

mod at_once;
mod by_clone;
mod contents;
mod groups;

/// A type whose values can be copied, where a copy may need memory.
pub trait TryClone: Drop {
    // Holds of a value and each value that `try_clone` may answer for it.
    ghost same: { Self → Self → Type 0 };
    // What has to hold of the type for its values to be copied.
    ghost can_clone: { Type 0 } = { ⊤ };
    // Holds of a value and each error by which its copy may be refused.
    ghost may_refuse: { Self → TryReserveError → Type 0 } = { λ _ _. ⊤ };

    /// A copy that is `same` as the value. An error says why memory was refused; the value stays as it is.
    fn try_clone(&self) -> Result<Self, TryReserveError>
    where
        Self: Sized,
        requires { can_clone }
        ensures { MatchResult result (same self.now) (may_refuse self.now) };

    /// Puts a copy of each source after the items of `copies`, for which there is room. An error is that of a refused copy; those made
    /// before it stay. It copies one by one, and is there for types whose values can be copied all at once.
    fn try_clone_all<A: Handle>(
        sources: &[Self],
        copies: &mut Vec<Self, A>,
    ) -> Result<(), TryReserveError>
    where
        Self: Sized,
        requires copied { can_clone }
        requires room { vec_len copies.old + length sources.now ≤ vec_capacity copies.old }
        ensures extended { OnOk result (IsExtended same copies.old.items sources.now copies.new.items) }
        ensures error { IfErr result (λ e. IsCopiedUpTo same may_refuse e copies.old.items sources.now copies.new.items) }
        ensures room { vec_capacity copies.old ≤ vec_capacity copies.new }
    {
        for i in 0..sources.len() {
            let copy = sources[i].try_clone()?;
            copies.push_reserved(copy);
        }
        Ok(())
    }
}

impl TryClone for u8 {
    ghost same = { λ source copy. copy ≡ source };

    ghost may_refuse = { λ _ _. ⊥ };

    fn try_clone(&self) -> Result<u8, TryReserveError> {
        Ok(*self)
    }

    fn try_clone_all<A: Handle>(
        sources: &[u8],
        copies: &mut Vec<u8, A>,
    ) -> Result<(), TryReserveError> {
        copy_all(sources, copies)
    }
}

impl TryClone for u16 {
    ghost same = { λ source copy. copy ≡ source };

    ghost may_refuse = { λ _ _. ⊥ };

    fn try_clone(&self) -> Result<u16, TryReserveError> {
        Ok(*self)
    }

    fn try_clone_all<A: Handle>(
        sources: &[u16],
        copies: &mut Vec<u16, A>,
    ) -> Result<(), TryReserveError> {
        copy_all(sources, copies)
    }
}

impl TryClone for u32 {
    ghost same = { λ source copy. copy ≡ source };

    ghost may_refuse = { λ _ _. ⊥ };

    fn try_clone(&self) -> Result<u32, TryReserveError> {
        Ok(*self)
    }

    fn try_clone_all<A: Handle>(
        sources: &[u32],
        copies: &mut Vec<u32, A>,
    ) -> Result<(), TryReserveError> {
        copy_all(sources, copies)
    }
}

impl TryClone for u64 {
    ghost same = { λ source copy. copy ≡ source };

    ghost may_refuse = { λ _ _. ⊥ };

    fn try_clone(&self) -> Result<u64, TryReserveError> {
        Ok(*self)
    }

    fn try_clone_all<A: Handle>(
        sources: &[u64],
        copies: &mut Vec<u64, A>,
    ) -> Result<(), TryReserveError> {
        copy_all(sources, copies)
    }
}

impl TryClone for u128 {
    ghost same = { λ source copy. copy ≡ source };

    ghost may_refuse = { λ _ _. ⊥ };

    fn try_clone(&self) -> Result<u128, TryReserveError> {
        Ok(*self)
    }

    fn try_clone_all<A: Handle>(
        sources: &[u128],
        copies: &mut Vec<u128, A>,
    ) -> Result<(), TryReserveError> {
        copy_all(sources, copies)
    }
}

impl TryClone for usize {
    ghost same = { λ source copy. copy ≡ source };

    ghost may_refuse = { λ _ _. ⊥ };

    fn try_clone(&self) -> Result<usize, TryReserveError> {
        Ok(*self)
    }

    fn try_clone_all<A: Handle>(
        sources: &[usize],
        copies: &mut Vec<usize, A>,
    ) -> Result<(), TryReserveError> {
        copy_all(sources, copies)
    }
}

impl TryClone for i8 {
    ghost same = { λ source copy. copy ≡ source };

    ghost may_refuse = { λ _ _. ⊥ };

    fn try_clone(&self) -> Result<i8, TryReserveError> {
        Ok(*self)
    }

    fn try_clone_all<A: Handle>(
        sources: &[i8],
        copies: &mut Vec<i8, A>,
    ) -> Result<(), TryReserveError> {
        copy_all(sources, copies)
    }
}

impl TryClone for i16 {
    ghost same = { λ source copy. copy ≡ source };

    ghost may_refuse = { λ _ _. ⊥ };

    fn try_clone(&self) -> Result<i16, TryReserveError> {
        Ok(*self)
    }

    fn try_clone_all<A: Handle>(
        sources: &[i16],
        copies: &mut Vec<i16, A>,
    ) -> Result<(), TryReserveError> {
        copy_all(sources, copies)
    }
}

impl TryClone for i32 {
    ghost same = { λ source copy. copy ≡ source };

    ghost may_refuse = { λ _ _. ⊥ };

    fn try_clone(&self) -> Result<i32, TryReserveError> {
        Ok(*self)
    }

    fn try_clone_all<A: Handle>(
        sources: &[i32],
        copies: &mut Vec<i32, A>,
    ) -> Result<(), TryReserveError> {
        copy_all(sources, copies)
    }
}

impl TryClone for i64 {
    ghost same = { λ source copy. copy ≡ source };

    ghost may_refuse = { λ _ _. ⊥ };

    fn try_clone(&self) -> Result<i64, TryReserveError> {
        Ok(*self)
    }

    fn try_clone_all<A: Handle>(
        sources: &[i64],
        copies: &mut Vec<i64, A>,
    ) -> Result<(), TryReserveError> {
        copy_all(sources, copies)
    }
}

impl TryClone for i128 {
    ghost same = { λ source copy. copy ≡ source };

    ghost may_refuse = { λ _ _. ⊥ };

    fn try_clone(&self) -> Result<i128, TryReserveError> {
        Ok(*self)
    }

    fn try_clone_all<A: Handle>(
        sources: &[i128],
        copies: &mut Vec<i128, A>,
    ) -> Result<(), TryReserveError> {
        copy_all(sources, copies)
    }
}

impl TryClone for isize {
    ghost same = { λ source copy. copy ≡ source };

    ghost may_refuse = { λ _ _. ⊥ };

    fn try_clone(&self) -> Result<isize, TryReserveError> {
        Ok(*self)
    }

    fn try_clone_all<A: Handle>(
        sources: &[isize],
        copies: &mut Vec<isize, A>,
    ) -> Result<(), TryReserveError> {
        copy_all(sources, copies)
    }
}

impl TryClone for () {
    ghost same = { λ source copy. copy ≡ source };

    ghost may_refuse = { λ _ _. ⊥ };

    fn try_clone(&self) -> Result<(), TryReserveError> {
        Ok(())
    }

    fn try_clone_all<A: Handle>(
        sources: &[()],
        copies: &mut Vec<(), A>,
    ) -> Result<(), TryReserveError> {
        copy_all(sources, copies)
    }
}

impl TryClone for bool {
    ghost same = { λ source copy. copy ≡ source };

    ghost may_refuse = { λ _ _. ⊥ };

    fn try_clone(&self) -> Result<bool, TryReserveError> {
        Ok(*self)
    }

    fn try_clone_all<A: Handle>(
        sources: &[bool],
        copies: &mut Vec<bool, A>,
    ) -> Result<(), TryReserveError> {
        copy_all(sources, copies)
    }
}

impl TryClone for char {
    ghost same = { λ source copy. copy ≡ source };

    ghost may_refuse = { λ _ _. ⊥ };

    fn try_clone(&self) -> Result<char, TryReserveError> {
        Ok(*self)
    }

    fn try_clone_all<A: Handle>(
        sources: &[char],
        copies: &mut Vec<char, A>,
    ) -> Result<(), TryReserveError> {
        copy_all(sources, copies)
    }
}
