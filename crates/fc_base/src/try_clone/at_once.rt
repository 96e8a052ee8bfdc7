// Copies of what is copied bit by bit.
ghost use Rattle.std.specs.Prelude.{◌≡◌, ◌+◌, ◌≤◌, length, OnOk, IfErr, vec_len, vec_capacity};
ghost use Rattle.fc_base.specs.CopiedLists.{IsExtended};

use crate::handle::Handle;
use crate::try_reserve_error::TryReserveError;

/// Puts the sources after the items, for which there is room, in one move.
pub(crate) fn copy_all<T: Copy, A: Handle>(
    sources: &[T],
    copies: &mut Vec<T, A>,
) -> Result<(), TryReserveError>
    requires { vec_len copies.old + length sources.now ≤ vec_capacity copies.old }
    ensures extended { OnOk result (IsExtended (λ source copy. copy ≡ source) copies.old.items sources.now copies.new.items) }
    ensures error { IfErr result (λ _. ⊥) }
    ensures room { vec_capacity copies.old ≤ vec_capacity copies.new }
{
    copies.extend_from_slice(sources)?;
    Ok(())
}
