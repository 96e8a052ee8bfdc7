//! Queues: keys that are pairs, how a contract names their order, and what is due.
ghost use Rattle.std.specs.Prelude.{◌≡◌, ◌≤◌, ◌∷◌, OnOk, OnErr, IfErr, MatchOption};
ghost use Rattle.fallible_collections.specs.Words.{entries, put};

use fallible_collections::TryReserveError;
use fallible_collections::btree::BTreeMap;

/// Puts a task at its time and number: tuples are ordered from their first part on, and so are derived orders. Refused, the task comes
/// back with its time and number, and the queue is as it was.
pub fn schedule<T: Drop>(
    queue: &mut BTreeMap<(u64, u64), T>,
    time: u64,
    number: u64,
    task: T,
) -> Result<(), ((u64, u64), T, TryReserveError)>
    ensures put { OnOk result (entries queue.new ≡ put ⟦<(u64, u64) as Ord>⟧.cmp (entries queue.old) (time, number) task) }
    ensures unchanged { OnErr result (queue.new ≡ queue.old) }
    ensures back { IfErr result (λ e. (e.0 ≡ (time, number)) × (e.1 ≡ task)) }
{
    queue.try_insert((time, number), task)?;
    Ok(())
}

/// Takes the first task out, where it is due by now: it is the first of the queue. Else nothing changes.
pub fn take_due<T: Drop>(queue: &mut BTreeMap<u64, T>, now: u64) -> Option<(u64, T)>
    ensures { MatchOption result (queue.new ≡ queue.old) (λ due. (due.0 ≤ now) × (entries queue.old ≡ due ∷ entries queue.new)) }
{
    let (first, _task) = queue.first_key_value()?;
    if *first > now {
        return None;
    }
    queue.pop_first()
}
