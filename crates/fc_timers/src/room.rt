//! Room in two lists at once.
ghost use Rattle.std.specs.Prelude.{◌≡◌, ◌+◌, ◌≤◌, IfErr, IsOk, OnErr, OnOk, min, vec_capacity, vec_len};
ghost use Rattle.fc_base.specs.declared.try_reserve_error.TryReserveError.{TryReserveError as Error};

use fc_base::{Handle, TryReserveError};

/// Makes room for so many more in each of two lists. The one that has more room asks first: where the other one is refused then, the lesser room of the
/// two is what it was.
///
/// # Errors
/// `AllocError` where a request for memory was refused.
pub(crate) fn reserve_both<X, Y, A: Handle>(
    one: &mut Vec<X, A>,
    more_of_one: usize,
    other: &mut Vec<Y, A>,
    more_of_other: usize,
) -> Result<(), TryReserveError>
    ensures one { one.new.items ≡ one.old.items }
    ensures other { other.new.items ≡ other.old.items }
    ensures room_of_one { OnOk result (vec_len one.old + more_of_one ≤ vec_capacity one.new) }
    ensures room_of_other { OnOk result (vec_len other.old + more_of_other ≤ vec_capacity other.new) }
    ensures one_kept { vec_capacity one.old ≤ vec_capacity one.new }
    ensures other_kept { vec_capacity other.old ≤ vec_capacity other.new }
    ensures fits { vec_len one.old + more_of_one ≤ vec_capacity one.old → vec_len other.old + more_of_other ≤ vec_capacity other.old → IsOk result }
    ensures refused { OnErr result (min (vec_capacity one.new) (vec_capacity other.new) ≡ min (vec_capacity one.old) (vec_capacity other.old)) }
    ensures error { IfErr result (λ e. e ≡ Error.AllocError) }
{
    if other.capacity() < one.capacity() {
        one.reserve(more_of_one)?;
        other.reserve(more_of_other)?;
        Ok(())
    } else {
        other.reserve(more_of_other)?;
        one.reserve(more_of_one)?;
        Ok(())
    }
}

/// Gives back room in two lists, of which the other one keeps as much as the one has items.
pub(crate) fn shrink_both<X, Y, A: Handle>(one: &mut Vec<X, A>, other: &mut Vec<Y, A>)
    ensures one { one.new.items ≡ one.old.items }
    ensures other { other.new.items ≡ other.old.items }
    ensures room_of_one { vec_capacity one.new ≤ vec_capacity one.old }
    ensures room_of_other { vec_capacity other.new ≤ vec_capacity other.old }
    ensures kept { vec_len one.old ≤ vec_capacity other.old → vec_len one.old ≤ vec_capacity other.new }
    ensures one_freed { vec_len one.old ≡ 0 → vec_capacity one.new ≡ 0 }
    ensures other_freed { vec_len one.old ≡ 0 → vec_len other.old ≡ 0 → vec_capacity other.new ≡ 0 }
{
    one.shrink_to_fit();
    other.shrink_to(one.len());
}
