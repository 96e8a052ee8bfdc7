//! What callers prove of a range of a map that is gone over in one call, through its public clauses alone.
ghost use Rattle.std.specs.Prelude.{◌≡◌, filter, nat_le};
ghost use Rattle.std.specs.Ordering.{nat_cmp};
ghost use Rattle.std.specs.declared.ops.Bound.TheVariants.{Included, Excluded};
ghost use Rattle.fc_laws.specs.Words.{entries, within, replacing};

use fc_map::map::BTreeMap;

/// Drops the pairs from one key up to, and without, another whose deadlines have passed; all others stay as they are.
pub fn drop_passed(map: &mut BTreeMap<u64, u64>, from: u64, to: u64, now: u64)
    ensures { entries map.new ≡ replacing nat_cmp (Included from) (Excluded to) (filter (λ e. nat_le now e.1) (within nat_cmp (Included from) (Excluded to) (entries map.old))) (entries map.old) }
{
    map.retain_range(from..to, |_key, deadline| *deadline >= now);
}
