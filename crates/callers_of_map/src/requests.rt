//! What callers prove of requests for memory: how many a call makes at the most, before it is made.
ghost use Rattle.std.specs.Prelude.{◌≡◌, ℕ, ◌+◌, ◌*◌, ◌<◌, ◌≤◌, length, IsSome, IsOk, OnOk};
ghost use Rattle.std.specs.Ordering.{nat_cmp};
ghost use Rattle.fc_base.specs.Parts.{at};
ghost use Rattle.fc_budget.specs.Accounts.{cap_of, used_of};
ghost use Rattle.fc_map.specs.Entries.{entries};
ghost use Rattle.fc_laws.specs.Held.{bytes_in};
ghost use Rattle.fc_laws.specs.Words.{blocks_in};

use fc_base::{Asked, Count, TryReserveError};
use fc_budget::Account;
use fc_laws::held_within;
use fc_map::map::BTreeMap;
use std::alloc::AllocError;

/// Puts the value at each number below 100: once nothing was refused, each of them is there.
pub fn put_hundred(map: &mut BTreeMap<u64, u64>, value: u64) -> Result<(), TryReserveError>
    ensures there { OnOk result ((number : ℕ) → number < 100 → IsSome (at nat_cmp (entries map.new) number)) }
{
    for number in 0..100 {
        map.try_insert(number, value)?;
    }
    Ok(())
}

/// Writes the value at each number below 100, which are all there: no memory is asked for, and so nothing is refused.
pub fn write_hundred(
    map: &mut BTreeMap<u64, u64>,
    value: u64,
    asked: &mut Asked,
) -> Result<(), TryReserveError>
    requires there { (number : ℕ) → number < 100 → IsSome (at nat_cmp (entries map.old) number) }
    ensures granted { IsOk result }
    ensures none { asked.new.requests ≡ asked.old.requests }
{
    for number in 0..100 {
        map.try_insert_asked(number, value, &mut Count::new(), asked)?;
    }
    Ok(())
}

/// Puts a pair into a map of fewer than a thousand. Whether it is refused or not, at most seven requests are made, and the map has at most 45,840 bytes.
pub fn insert_below_thousand(
    map: &mut BTreeMap<u64, u64>,
    key: u64,
    value: u64,
    asked: &mut Asked,
) -> Result<Option<u64>, TryReserveError>
    requires few { length (entries map.old) < 1000 }
    ensures requests { asked.new.requests ≤ asked.old.requests + 7 }
    ensures bytes { bytes_in 240 640 map.new ≤ 45840 }
{
    let done = map.try_insert_asked(key, value, &mut Count::new(), asked);
    held_within(map);
    Ok(done?)
}

/// Puts a pair in and takes it out again: the map then has no more blocks than it had and asked for.
pub fn put_and_take(
    map: &mut BTreeMap<u64, u64>,
    key: u64,
    value: u64,
    asked: &mut Asked,
) -> Result<(), TryReserveError>
    ensures held { OnOk result (asked.old.requests + blocks_in map.new ≤ asked.new.requests + blocks_in map.old) }
{
    map.try_insert_asked(key, value, &mut Count::new(), asked)?;
    let _value = map.remove_counted(&key, &mut Count::new());
    Ok(())
}

/// Cuts a map in two and puts both together again: the map then has no more blocks than it had and asked for.
pub fn cut_and_join(
    map: &mut BTreeMap<u64, u64>,
    key: u64,
    asked: &mut Asked,
) -> Result<(), TryReserveError>
    ensures held { OnOk result (asked.old.requests + blocks_in map.new ≤ asked.new.requests + blocks_in map.old) }
{
    let mut rest = map.split_off_asked(&key, asked)?;
    map.append_asked(&mut rest, &mut Count::new(), asked)
}

/// Copies a map of fewer than a thousand pairs. Whether it is refused or not, at most 161 requests are made: one for each of at most 143 nodes, and one more for
/// each of at most 18 that have children.
pub fn copy_below_thousand(
    map: &BTreeMap<u64, u64>,
    asked: &mut Asked,
) -> Result<BTreeMap<u64, u64>, TryReserveError>
    requires few { length (entries map.now) < 1000 }
    ensures requests { asked.new.requests ≤ asked.old.requests + 161 }
{
    held_within(map);
    map.try_clone_asked(asked)
}

/// Counts so many blocks of so many bytes as out, which an account has left: none of them is refused.
pub fn take_blocks(account: &mut Account, blocks: usize, bytes: usize) -> Result<(), AllocError>
    requires left { used_of account.old + blocks * bytes ≤ cap_of account.old }
    ensures granted { IsOk result }
    ensures taken { used_of account.new ≡ used_of account.old + blocks * bytes }
{
    for _block in 0..blocks {
        account.take(bytes)?;
    }
    Ok(())
}
