//! The steps of an insertion into both indexes: items that are put in, taken back where the row is refused, and gone with a row that is replaced.
ghost use Rattle.std.specs.Prelude.{◌≡◌, ◌↔◌, ◌⊎◌, cond, length, IsTrue, IfOk, IfErr, OnOk, OnErr, IsErr, None};
ghost use Rattle.std.specs.Option.{option_map};
ghost use Rattle.fc_base.specs.Growth.{MayGrowRefuse};
ghost use Rattle.fc_set.specs.Items.{items, item_at, with_item, without, AreAscending};
ghost use Rattle.fc_index.specs.Rows.{IsNewKey, key_then_id, without_old};

use crate::keyed::Keyed;
use fc_base::{Handle, TryReserveError};
use fc_set::set::BTreeSet;

/// Puts the items of a row's keys into the indexes, and answers which of them are new.
///
/// # Errors
/// As `BTreeSet::try_insert`, into either. Both have then what they had.
pub(crate) fn put_keys<I: Ord + Copy, A: Ord + Copy, B: Ord + Copy, H: Handle>(
    firsts: &mut BTreeSet<(A, I), H>,
    seconds: &mut BTreeSet<(B, I), H>,
    first: A,
    second: B,
    id: I,
) -> Result<(bool, bool), TryReserveError>
    requires { AreAscending (key_then_id A.cmp I.cmp) (items firsts.old) }
    ensures firsts { OnOk result (items firsts.new ≡ with_item (key_then_id A.cmp I.cmp) (items firsts.old) (first, id)) }
    ensures seconds { OnOk result (items seconds.new ≡ with_item (key_then_id B.cmp I.cmp) (items seconds.old) (second, id)) }
    ensures new_first { IfOk result (λ new. IsTrue new.0 ↔ (item_at (key_then_id A.cmp I.cmp) (items firsts.old) (first, id) ≡ None)) }
    ensures new_second { IfOk result (λ new. IsTrue new.1 ↔ (item_at (key_then_id B.cmp I.cmp) (items seconds.old) (second, id) ≡ None)) }
    ensures ascending { OnOk result (AreAscending (key_then_id A.cmp I.cmp) (items firsts.new) × AreAscending (key_then_id B.cmp I.cmp) (items seconds.new)) }
    ensures unchanged { OnErr result ((items firsts.new ≡ items firsts.old) × (items seconds.new ≡ items seconds.old)) }
    ensures new_key { OnErr result (IsNewKey A.cmp I.cmp (items firsts.old) first id ⊎ IsNewKey B.cmp I.cmp (items seconds.old) second id) }
    ensures error { IfErr result (λ e. MayGrowRefuse (length (items firsts.old)) e ⊎ MayGrowRefuse (length (items seconds.old)) e) }
    ensures full_first { IsNewKey A.cmp I.cmp (items firsts.old) first id → length (items firsts.old) ≡ usize.MAX → IsErr result }
    ensures full_second { IsNewKey B.cmp I.cmp (items seconds.old) second id → length (items seconds.old) ≡ usize.MAX → IsErr result }
{
    let is_new_first = match firsts.try_insert((first, id)) {
        Ok(is_new) => is_new,
        Err((_item, error)) => return Err(error),
    };
    match seconds.try_insert((second, id)) {
        Ok(is_new_second) => Ok((is_new_first, is_new_second)),
        Err((_item, error)) => {
            take_back(firsts, first, id, is_new_first);
            Err(error)
        }
    }
}

/// Takes the item of a key and an id out again, if it was new.
pub(crate) fn take_back<K: Ord + Copy, I: Ord + Copy, H: Handle>(
    index: &mut BTreeSet<(K, I), H>,
    key: K,
    id: I,
    is_new: bool,
)
    ensures { items index.new ≡ cond is_new (without (key_then_id K.cmp I.cmp) (items index.old) (key, id)) (items index.old) }
{
    if is_new {
        index.remove(&(key, id));
    }
}

/// Takes the item of an old key and the id out, if there is an old key, and it is not equal to the new one.
pub(crate) fn take_out_old<K: Ord + Copy, I: Ord + Copy, H: Handle>(
    index: &mut BTreeSet<(K, I), H>,
    old: Option<K>,
    new: K,
    id: I,
)
    requires { AreAscending (key_then_id K.cmp I.cmp) (items index.old) }
    ensures rest { items index.new ≡ without_old K.cmp I.cmp (items index.old) old new id }
    ensures ascending { AreAscending (key_then_id K.cmp I.cmp) (items index.new) }
{
    let Some(key) = old else {
        return;
    };
    if key.cmp(&new).is_eq() {
        return;
    }
    index.remove(&(key, id));
}

/// The first key of a row, if there is a row.
pub(crate) fn first_of<A: Copy, B: Copy, V>(row: &Option<Keyed<A, B, V>>) -> Option<A>
    ensures { result ≡ option_map (λ r. r.first) row.now }
{
    match row {
        Some(row) => Some(row.first),
        None => None,
    }
}

/// The second key of a row, if there is a row.
pub(crate) fn second_of<A: Copy, B: Copy, V>(row: &Option<Keyed<A, B, V>>) -> Option<B>
    ensures { result ≡ option_map (λ r. r.second) row.now }
{
    match row {
        Some(row) => Some(row.second),
        None => None,
    }
}
