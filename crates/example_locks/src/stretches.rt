//! Stretches of bytes that are held, by their starts, as a map has them: each with its end and its owner.
ghost use Rattle.std.specs.Prelude.{◌≡◌, ℕ, ◌<◌, ◌≤◌, Some, length, max, IsSome, IfSome, IfNone, OnOk, OnErr};
ghost use Rattle.std.specs.Ordering.{nat_cmp};
ghost use Rattle.fallible_collections.specs.Words.{entries, put, value_at};
ghost use Rattle.example_locks.specs.Held.{holder_of, IsIn, AreApart, StopAt, IsHeldBy, IsLastIn, IsReleased, IsRewritten};

use fallible_collections::TryReserveError;
use fallible_collections::btree::BTreeMap;

/// The stretches of a table: by the start of each its end and its owner.
pub type Stretches = BTreeMap<u64, (u64, u64)>;

// The last stretch that starts before the byte `below`, where it goes on after `from`.
fn last_in(held: &Stretches, from: u64, below: u64) -> Option<(u64, (u64, u64))>
    requires { AreApart (entries held.now) }
    ensures some { IfSome result (IsLastIn (entries held.now) from below) }
    ensures none { IfNone result ((s : ℕ) → (x : ℕ × ℕ) → IsIn (entries held.now) s x → s < below → x.0 ≤ from) }
{
    let (start, rest) = held.last_before(&below)?;
    if from < rest.0 {
        Some((*start, *rest))
    } else {
        None
    }
}

/// An owner but this one who holds a byte from `start` up to, and without, `end`.
pub fn other_in(held: &Stretches, start: u64, end: u64, owner: u64) -> Option<u64>
    requires { AreApart (entries held.now) }
    ensures some { IfSome result (IsHeldBy (entries held.now) start end owner) }
    ensures none { IfNone result ((byte : ℕ) → start ≤ byte → byte < end → (o : ℕ) → holder_of (entries held.now) byte ≡ Some o → o ≡ owner) }
{
    if end <= start {
        return None;
    }
    let mut below = end;
    'walk: while let Some((at, (_end, holder))) = last_in(held, start, below) {
        if holder != owner {
            return Some(holder);
        }
        below = at;
    }
    None
}

/// From where on the owner holds all bytes up to, and without, `start`: where the stretch begins that reaches it, or `start` itself.
pub fn reach_before(held: &Stretches, start: u64, owner: u64) -> u64
    requires { AreApart (entries held.now) }
    ensures order { result ≤ start }
    ensures held { (byte : ℕ) → result ≤ byte → byte < start → holder_of (entries held.now) byte ≡ Some owner }
{
    let Some((at, (_end, holder))) = last_in(held, start.saturating_sub(1), start) else {
        return start;
    };
    if holder == owner { at } else { start }
}

/// Up to where the owner holds all bytes from `end` on: where the stretch ends that holds it, or `end` itself.
pub fn reach_after(held: &Stretches, end: u64, owner: u64) -> u64
    requires { AreApart (entries held.now) }
    ensures order { end ≤ result }
    ensures held { (byte : ℕ) → end ≤ byte → byte < result → holder_of (entries held.now) byte ≡ Some owner }
    ensures stops { StopAt (entries held.now) owner result }
{
    let Some((_at, (reach, holder))) = last_in(held, end, end.saturating_add(1)) else {
        return end;
    };
    if holder == owner { reach } else { end }
}

/// Takes the bytes from `start` up to, and without, `end` from the owner, whose stretches don't go on after `end`. It takes no memory.
pub fn release(held: &mut Stretches, start: u64, end: u64, owner: u64)
    requires apart { AreApart (entries held.old) }
    requires stops { StopAt (entries held.old) owner end }
    requires order { start ≤ end }
    ensures released { IsReleased (entries held.old) (entries held.new) start end owner }
    ensures fewer { length (entries held.new) ≤ length (entries held.old) }
{
    let mut below = end;
    'walk: while let Some(last) = last_in(held, start, below) {
        give_up(held, start, last, owner);
        below = last.0;
    }
}

// Takes from the owner what a stretch holds from `start` on, where the stretch is the owner's.
fn give_up(held: &mut Stretches, start: u64, stretch: (u64, (u64, u64)), owner: u64)
    requires apart { AreApart (entries held.old) }
    requires there { IsIn (entries held.old) stretch.0 stretch.1 }
    requires reaches { start < stretch.1.0 }
    ensures released { IsReleased (entries held.old) (entries held.new) (max start stretch.0) stretch.1.0 owner }
    ensures fewer { length (entries held.new) ≤ length (entries held.old) }
{
    let (at, (_end, holder)) = stretch;
    if holder != owner {
        return;
    }
    if start <= at {
        held.remove(&at);
        return;
    }
    end_at(held, at, start, owner);
}

// Has the stretch that starts at `at` end at a byte.
fn end_at(held: &mut Stretches, at: u64, end: u64, owner: u64)
    requires { IsSome (value_at nat_cmp (entries held.old) at) }
    ensures { entries held.new ≡ put nat_cmp (entries held.old) at (end, owner) }
{
    if let Some(rest) = held.get_mut(&at) {
        *rest = (end, owner);
    }
}

/// Takes the bytes from `start` up to, and without, `kept` from the owner, whose stretches don't go on after `end`, and gives all from `kept` up to `end`,
/// which no other holds, to the owner as one stretch.
///
/// # Errors
/// Where memory for that stretch was refused. Nothing has changed then.
pub fn rewrite(
    held: &mut Stretches,
    start: u64,
    kept: u64,
    end: u64,
    owner: u64,
) -> Result<(), TryReserveError>
    requires apart { AreApart (entries held.old) }
    requires stops { StopAt (entries held.old) owner end }
    requires order { (start ≤ kept) × (kept ≤ end) }
    requires free { (byte : ℕ) → kept ≤ byte → byte < end → (o : ℕ) → holder_of (entries held.old) byte ≡ Some o → o ≡ owner }
    ensures rewritten { OnOk result (IsRewritten (entries held.old) (entries held.new) start kept end owner) }
    ensures refused { OnErr result (kept < end) }
    ensures unchanged { OnErr result (held.new ≡ held.old) }
{
    if kept >= end {
        release(held, start, end, owner);
        return Ok(());
    }
    let mut reservation = held.try_reserve_nodes(1)?;
    release(held, start, end, owner);
    held.insert_reserved(&mut reservation, kept, (end, owner));
    Ok(())
}
