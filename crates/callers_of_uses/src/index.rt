//! A caller of a table.
ghost use Rattle.std.specs.Prelude.{◌≡◌, OnErr, IfErr, IfOk, Some, length};
ghost use Rattle.fc_base.specs.Growth.{MayGrowRefuse};

use fc_index::{Keyed, Table, TryReserveError};

/// Puts a row in and looks it up: it is there, with both its keys. Where it was refused the table is as it was: it is empty, or has rows enough to
/// fill a leaf.
pub fn insert_then_get(
    table: &mut Table<u64, u64, u64, u64>,
    id: u64,
    first: u64,
    second: u64,
    value: u64,
) -> Result<Option<Keyed<u64, u64, u64>>, TryReserveError>
    ensures there { IfOk result (λ found. found ≡ Some (record { first = first; second = second; value = value })) }
    ensures unchanged { OnErr result (table.new ≡ table.old) }
    ensures error { IfErr result (λ e. MayGrowRefuse (length table.old) e) }
{
    match table.try_insert(id, first, second, value) {
        Ok(_old) => Ok(table.get(id).copied()),
        Err((_value, error)) => Err(error),
    }
}
