//! A table of locks on ranges of bytes: each at its first byte, with the byte after its last.
ghost use Rattle.std.specs.Prelude.{ℕ, ◌≡◌, ◌<◌, ◌≤◌, ◌+◌, ◌↔◌, length, IsTrue, IsSome, IfSome, OnOk, OnErr, None, Some};
ghost use Rattle.std.specs.List.{Contains};
ghost use Rattle.std.specs.Ordering.{nat_cmp};
ghost use Rattle.fc_laws.specs.Words.{entries, put, cut, at, value_at, above, below, not_above, not_below, first_item, last_item};

use fc_base::TryReserveError;
use fc_map::map::BTreeMap;

/// The lock that covers a byte: the last one that begins at it or before it, where it ends after the byte.
#[tactic(auto, using(fc_laws::proofs::Laws::last_at_or_before_there, fc_laws::proofs::Laws::last_at_or_before_side, fc_laws::proofs::Laws::number_at_most, fc_laws::proofs::Laws::number_total))]
pub fn lock_covering(locks: &BTreeMap<u64, u64>, byte: u64) -> Option<(u64, u64)>
    ensures there { IfSome result (λ lock. at nat_cmp (entries locks.now) lock.0 ≡ Some lock) }
    ensures covers { IfSome result (λ lock. (lock.0 ≤ byte) × (byte < lock.1)) }
    ensures none { result ≡ None → (from end : ℕ) → last_item (not_above nat_cmp (entries locks.now) byte) ≡ Some (from, end) → end ≤ byte }
{
    let (from, end) = locks.last_at_or_before(&byte)?;
    if byte < *end {
        Some((*from, *end))
    } else {
        None
    }
}

/// The last lock that begins before a byte.
#[tactic(auto, using(fc_laws::proofs::Laws::last_before_there, fc_laws::proofs::Laws::last_before_side, fc_laws::proofs::Laws::number_less, fc_laws::proofs::Laws::number_total))]
pub fn lock_before(locks: &BTreeMap<u64, u64>, byte: u64) -> Option<(u64, u64)>
    ensures there { IfSome result (λ lock. at nat_cmp (entries locks.now) lock.0 ≡ Some lock) }
    ensures side { IfSome result (λ lock. lock.0 < byte) }
    ensures last { result ≡ last_item (below nat_cmp (entries locks.now) byte) }
{
    let (from, end) = locks.last_before(&byte)?;
    Some((*from, *end))
}

/// The first lock that begins at a byte or after it.
#[tactic(auto, using(fc_laws::proofs::Laws::first_at_or_after_there, fc_laws::proofs::Laws::first_at_or_after_side, fc_laws::proofs::Laws::number_at_least, fc_laws::proofs::Laws::number_total))]
pub fn lock_from(locks: &BTreeMap<u64, u64>, byte: u64) -> Option<(u64, u64)>
    ensures there { IfSome result (λ lock. at nat_cmp (entries locks.now) lock.0 ≡ Some lock) }
    ensures side { IfSome result (λ lock. byte ≤ lock.0) }
    ensures first { result ≡ first_item (not_below nat_cmp (entries locks.now) byte) }
{
    let (from, end) = locks.first_at_or_after(&byte)?;
    Some((*from, *end))
}

/// The first lock that begins after a byte.
#[tactic(auto, using(fc_laws::proofs::Laws::first_after_there, fc_laws::proofs::Laws::first_after_side, fc_laws::proofs::Laws::number_greater, fc_laws::proofs::Laws::number_total))]
pub fn lock_after(locks: &BTreeMap<u64, u64>, byte: u64) -> Option<(u64, u64)>
    ensures there { IfSome result (λ lock. at nat_cmp (entries locks.now) lock.0 ≡ Some lock) }
    ensures side { IfSome result (λ lock. byte < lock.0) }
    ensures first { result ≡ first_item (above nat_cmp (entries locks.now) byte) }
{
    let (from, end) = locks.first_after(&byte)?;
    Some((*from, *end))
}

/// The end of a lock whose end was found before.
#[tactic(auto, using(fc_laws::proofs::Laws::some_at))]
pub fn end_of(locks: &BTreeMap<u64, u64>, from: u64) -> u64
    requires { IsSome (value_at nat_cmp (entries locks.now) from) }
    ensures { value_at nat_cmp (entries locks.now) from ≡ Some result }
{
    locks[&from]
}

/// Whether this very lock is one of the table.
pub fn is_lock(locks: &BTreeMap<u64, u64>, from: u64, end: u64) -> bool
    ensures { IsTrue result ↔ Contains (entries locks.now) (from, end) }
{
    match locks.get(&from) {
        Some(held) => *held == end,
        None => false,
    }
}

/// Locks a range that is not empty, in the place of a lock that begins there. No lock of the table is empty then, where none was,
/// and there is at most one more. Refused, the table is as it was.
#[tactic(auto, using(fc_laws::proofs::Laws::length_put_at_most))]
pub fn lock(locks: &mut BTreeMap<u64, u64>, from: u64, end: u64) -> Result<(), TryReserveError>
    requires range { from < end }
    requires ranges { (j w : ℕ) → value_at nat_cmp (entries locks.old) j ≡ Some w → j < w }
    ensures ranges { (j w : ℕ) → value_at nat_cmp (entries locks.new) j ≡ Some w → j < w }
    ensures at_most { length (entries locks.new) ≤ length (entries locks.old) + 1 }
    ensures put { OnOk result (entries locks.new ≡ put nat_cmp (entries locks.old) from end) }
    ensures unchanged { OnErr result (locks.new ≡ locks.old) }
{
    locks.try_insert(from, end)?;
    Ok(())
}

/// Takes a lock off the table and answers its end. No lock begins there then, and those that do elsewhere did before.
#[tactic(auto, using(fc_laws::proofs::Laws::value_at_cut, fc_laws::proofs::Laws::value_before_cut, fc_laws::proofs::Laws::number_total))]
pub fn unlock(locks: &mut BTreeMap<u64, u64>, from: u64) -> Option<u64>
    ensures end { result ≡ value_at nat_cmp (entries locks.old) from }
    ensures gone { value_at nat_cmp (entries locks.new) from ≡ None }
    ensures others { (j w : ℕ) → value_at nat_cmp (entries locks.new) j ≡ Some w → ¬ (j ≡ from) × (value_at nat_cmp (entries locks.old) j ≡ Some w) }
    ensures rest { entries locks.new ≡ cut nat_cmp (entries locks.old) from }
{
    locks.remove(&from)
}
