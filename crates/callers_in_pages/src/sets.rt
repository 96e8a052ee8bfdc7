//! Sets, and what two of them have in common.
ghost use Rattle.std.specs.Prelude.{◌≡◌, Ok, false, length, IsSome, OnErr};
ghost use Rattle.fallible_collections.specs.Words.{item_at, items, text_order};

use fallible_collections::TryReserveError;
use fallible_collections::btree::BTreeSet;
use std::alloc::Global;

/// Whether a name is new, which is remembered then. A known name is never refused, and a refusal leaves the set as it was.
pub fn remember(
    seen: &mut BTreeSet<String>,
    alloc: Global,
    name: &str,
) -> Result<bool, TryReserveError>
    ensures known { IsSome (item_at text_order (items seen.old) name.now) → result ≡ Ok false }
    ensures unchanged { OnErr result (seen.new ≡ seen.old) }
{
    if seen.contains(name) {
        return Ok(false); // no `String` is made to ask
    }
    Ok(seen.try_insert(String::from_str(alloc, name)?)?)
}
