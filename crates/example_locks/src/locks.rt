//! A table of locks on ranges of bytes.
ghost use Rattle.std.specs.Prelude.{◌≡◌, ℕ, ◌<◌, ◌≤◌, ◌⊎◌, [], Some, IfSome, IfNone, IfErr, OnOk, OnErr};
ghost use Rattle.example_locks.specs.Held.{holder_of, without, AreApart, IsHeldBy};
ghost use Rattle.example_locks.specs.Refusals.{IsNotLocked, IsNotUnlocked};

use crate::stretches;
use fallible_collections::TryReserveError;
use fallible_collections::btree::BTreeMap;
use fallible_collections::btree::map::Iter;
use std::alloc::Global;
use std::marker::Model;

/// Why a call changed nothing.
#[derive(Clone, Copy)]
pub enum Refusal {
    /// The range has no byte.
    Empty,
    /// This other owner holds a byte of the range.
    Held(u64),
    /// Memory was refused.
    Memory(TryReserveError),
}

/// Locks on ranges of bytes, each byte for one owner alone. Contracts see the list of stretches that are held, by their starts, which ascend and don't
/// overlap: each with its end and its owner.
#[derive(Drop)]
pub struct Locks {
    held: BTreeMap<u64, (u64, u64)>,
}

impl Model for Locks {
    ghost use Rattle.std.specs.Prelude.{ℕ, List};
    ghost use Rattle.fallible_collections.specs.Words.{entries};
    ghost use Rattle.example_locks.specs.Held.{AreApart};

    ghost Value = { List (ℕ × (ℕ × ℕ)) };

    ghost view = { λ l. entries l.held };

    ghost invariant = { λ l. AreApart (entries l.held) };
}

impl Locks {
    /// A table in which nothing is locked. It takes no memory.
    pub fn new(alloc: Global) -> Locks
        ensures { result ≡ [] }
    {
        Locks {
            held: BTreeMap::new(alloc),
        }
    }

    /// Gives the bytes from `start` up to, and without, `end` to an owner. What that owner holds among them, or next to them, becomes one stretch.
    ///
    /// # Errors
    /// `Empty` where there are no such bytes, `Held` with another owner who holds one of them, and `Memory` where memory for one stretch was refused. The
    /// table is then as it was.
    pub fn lock(&mut self, start: u64, end: u64, owner: u64) -> Result<(), Refusal>
        ensures free { OnOk result ((byte : ℕ) → start ≤ byte → byte < end → (o : ℕ) → holder_of self.old byte ≡ Some o → o ≡ owner) }
        ensures inside { OnOk result ((byte : ℕ) → start ≤ byte → byte < end → holder_of self.new byte ≡ Some owner) }
        ensures outside { OnOk result ((byte : ℕ) → (byte < start) ⊎ (end ≤ byte) → holder_of self.new byte ≡ holder_of self.old byte) }
        ensures why { IfErr result (IsNotLocked self.old start end owner) }
        ensures unchanged { OnErr result (self.new ≡ self.old) }
    {
        if end <= start {
            return Err(Refusal::Empty);
        }
        if let Some(other) = stretches::other_in(&self.held, start, end, owner) {
            return Err(Refusal::Held(other));
        }
        let from = stretches::reach_before(&self.held, start, owner);
        let to = stretches::reach_after(&self.held, end, owner);
        match stretches::rewrite(&mut self.held, from, from, to, owner) {
            Ok(()) => Ok(()),
            Err(refused) => Err(Refusal::Memory(refused)),
        }
    }

    /// Takes the bytes from `start` up to, and without, `end` from an owner; what others hold among them they keep. A stretch that goes on on both sides is
    /// split. It takes memory just where a stretch of the owner goes on after `end`.
    ///
    /// # Errors
    /// `Empty` where there are no such bytes, and `Memory` where memory for one stretch was refused. The table is then as it was.
    pub fn unlock(&mut self, start: u64, end: u64, owner: u64) -> Result<(), Refusal>
        ensures inside { OnOk result ((byte : ℕ) → start ≤ byte → byte < end → holder_of self.new byte ≡ without owner (holder_of self.old byte)) }
        ensures outside { OnOk result ((byte : ℕ) → (byte < start) ⊎ (end ≤ byte) → holder_of self.new byte ≡ holder_of self.old byte) }
        ensures why { IfErr result (IsNotUnlocked self.old start end owner) }
        ensures unchanged { OnErr result (self.new ≡ self.old) }
    {
        if end <= start {
            return Err(Refusal::Empty);
        }
        let to = stretches::reach_after(&self.held, end, owner);
        match stretches::rewrite(&mut self.held, start, end, to, owner) {
            Ok(()) => Ok(()),
            Err(refused) => Err(Refusal::Memory(refused)),
        }
    }

    /// An owner but this one who holds a byte from `start` up to, and without, `end`; `None` where a lock of them would meet none.
    pub fn test(&self, start: u64, end: u64, owner: u64) -> Option<u64>
        ensures some { IfSome result (IsHeldBy self.now start end owner) }
        ensures none { IfNone result ((byte : ℕ) → start ≤ byte → byte < end → (o : ℕ) → holder_of self.now byte ≡ Some o → o ≡ owner) }
    {
        stretches::other_in(&self.held, start, end, owner)
    }

    /// A walk over the stretches that are held, in order: the start of each, and its end and owner.
    pub fn iter(&self) -> Iter<'_, u64, (u64, u64)>
        ensures stretches { result ≡ self.now }
        ensures apart { AreApart self.now }
    {
        self.held.iter()
    }
}
