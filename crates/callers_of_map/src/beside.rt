//! What callers prove of the entry next to a key through its public clauses alone.
ghost use Rattle.std.specs.Prelude.{◌≡◌, ℕ, List, [], ◌∷◌, ◌++◌};
ghost use Rattle.std.specs.Ordering.{nat_cmp};
ghost use Rattle.fc_laws.specs.Words.{entries, above, below, not_above, not_below};

use fc_map::map::BTreeMap;

/// Writes the value of the first pair from a key on, if there is one: the next deadline is put off.
pub fn put_off_next(map: &mut BTreeMap<u64, u64>, now: u64, value: u64)
    ensures written { (e : ℕ × ℕ) (rest : List (ℕ × ℕ)) → not_below nat_cmp (entries map.old) now ≡ e ∷ rest → entries map.new ≡ below nat_cmp (entries map.old) now ++ (e.0, value) ∷ rest }
    ensures none { not_below nat_cmp (entries map.old) now ≡ [] → map.new ≡ map.old }
{
    if let Some(mut entry) = map.first_entry_at_or_after(&now) {
        *entry.get_mut() = value;
    }
}

/// Takes the last pair up to a key out, if there is one.
pub fn take_last_up_to(map: &mut BTreeMap<u64, u64>, key: u64) -> Option<(u64, u64)>
    ensures taken { (e : ℕ × ℕ) (lead : List (ℕ × ℕ)) → not_above nat_cmp (entries map.old) key ≡ lead ++ e ∷ [] → entries map.new ≡ lead ++ above nat_cmp (entries map.old) key }
    ensures none { not_above nat_cmp (entries map.old) key ≡ [] → map.new ≡ map.old }
{
    match map.last_entry_at_or_before(&key) {
        Some(entry) => Some(entry.remove_entry()),
        None => None,
    }
}
