//! Maps that are kept in step where memory is refused.
ghost use Rattle.std.specs.Prelude.{◌≡◌, OnErr, OnOk};
ghost use Rattle.fallible_collections.specs.Words.{entries, put};

use fallible_collections::TryReserveError;
use fallible_collections::btree::BTreeMap;
use fallible_collections::btree::map::insert_both;

/// Puts a pair into one map and its reverse into another: both, or neither.
pub fn put_in_both<I: Ord + Copy + Drop, O: Ord + Copy + Drop>(
    owners: &mut BTreeMap<I, O>,
    ids: &mut BTreeMap<O, I>,
    id: I,
    owner: O,
) -> Result<(), TryReserveError>
    ensures put { OnOk result (entries owners.new ≡ put I.cmp (entries owners.old) id owner) }
    ensures reverse { OnOk result (entries ids.new ≡ put O.cmp (entries ids.old) owner id) }
    ensures unchanged { OnErr result ((owners.new ≡ owners.old) × (ids.new ≡ ids.old)) }
{
    insert_both(owners, ids, id, owner, owner, id)?; // what comes back is what was given
    Ok(())
}
