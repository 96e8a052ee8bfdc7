//! The README's examples, in a crate that names `fallible_collections`, `fc_budget` and allocators of the kit alone.
#![tactic(auto)]

ghost use Rattle.std.specs.Prelude.{◌≡◌, List, [], None, OnOk, IfOk, IfSome, IsOk, IsSome, OnErr, Some, string_bytes, decimal, unwrap_or, ◌+◌, ◌<◌};
ghost use Rattle.std.specs.Iterator.{IsFiniteIterable};
ghost use Rattle.fallible_collections.specs.Words.{at, entries, extended, front, hashed_value_at, put, text_order, value_at, GivesAll};

pub mod both;
pub mod boxes;
pub mod budgets;
pub mod errors;
pub mod idioms;
pub mod joins;
pub mod neighbours;
pub mod orders;
pub mod sets;
pub mod totals;
pub mod vectors;

use fallible_collections::btree::BTreeMap;
use fallible_collections::format::try_format;
use fallible_collections::{TryFromIterator, TryHashMap, TryReserveError, TryVec, try_read_up_to};
use std::alloc::Global;
use std::io::{self, Read};
use std::ops::Bound;

/// Two words, put in by key and by entry.
pub fn first_words(alloc: Global) -> Result<BTreeMap<u64, &'static str>, TryReserveError> {
    let mut words = BTreeMap::new(alloc);
    words.try_insert(1, "one")?; // Ok(None): the key is new
    words.try_insert(1, "uno")?; // Ok(Some("one")): the key stays, the value is replaced
    *words.try_entry(2)?.or_try_insert("two")? = "dos"; // one search, and a value to write to
    Ok(words)
}

/// Counts a word. One that is known is counted without memory. A new one that is refused comes back, and is tried again once the memory
/// set aside was given up for it.
///
/// # Errors
/// Only at a new word: where memory for a copy of it was refused, or for its place in the map, twice. The counts are then as they were.
#[tactic(auto, using(fallible_collections::proofs::Laws::value_at_text_put))]
pub fn count_word(
    counts: &mut BTreeMap<String, u64>,
    set_aside: &mut TryVec<u8>,
    alloc: Global,
    word: &str,
) -> Result<(), TryReserveError>
    ensures known { IsSome (at text_order (entries counts.old) word.now) → IsOk result × (set_aside.new ≡ set_aside.old) }
    ensures new { OnOk result (at text_order (entries counts.old) word.now ≡ None → value_at text_order (entries counts.new) word.now ≡ Some 1) }
    ensures unchanged { OnErr result (counts.new ≡ counts.old) }
{
    if let Some(count) = counts.get_mut(word) {
        *count = count.saturating_add(1); // a known word is never refused
        return Ok(());
    }
    match counts.try_insert(String::from_str(alloc, word)?, 1) {
        Ok(_) => Ok(()),
        Err((word, one, _refused)) => {
            *set_aside = TryVec::new(alloc); // makes room
            counts.try_insert(word, one)?; // the word that came back: no other copy is made
            Ok(())
        }
    }
}

/// The highest of the prices whose keys are 10 or more, and 0 where there is none.
pub fn highest(prices: &BTreeMap<u64, u64>) -> u64 {
    let mut highest = 0;
    for (_, price) in prices.range((Bound::Included(&10), Bound::Unbounded)) {
        highest = highest.max(*price);
    }
    highest
}

/// Numbers the values anew, from the least key on.
pub fn renumber(prices: &mut BTreeMap<u64, u64>, from: u64) {
    let mut walk = prices.iter_mut();
    let mut next = from;
    for _ in 0..walk.len() {
        if let Some(price) = walk.next() {
            *price = next; // one value is lent at a time
        }
        next = next.saturating_add(1);
    }
    drop(walk); // the map is free again
}

/// Puts a count at an item and looks it up: what was put is there, and a refusal leaves the counts as they were.
#[tactic(auto, using(fallible_collections::proofs::Laws::value_at_put))]
pub fn stocked<K: Ord + Copy + Drop>(
    counts: &mut BTreeMap<K, u64>,
    item: K,
    count: u64,
) -> Result<Option<u64>, TryReserveError>
    ensures found { IfOk result (λ found. found ≡ Some count) }
    ensures put { IfOk result (λ _. entries counts.new ≡ put K.cmp (entries counts.old) item count) }
    ensures unchanged { OnErr result (counts.new ≡ counts.old) }
{
    counts.try_insert(item, count)?;
    Ok(counts.get(&item).copied())
}

/// A map of the pairs that an iterator gives until its end, put in one after another.
pub fn gathered<K: Ord + Drop, V: Drop, I: IntoIterator<Item = (K, V)>>(
    alloc: Global,
    pairs: I,
) -> Result<BTreeMap<K, V>, TryReserveError>
    requires { IsFiniteIterable I.into_iter_gives I.IntoIter.can_next I.IntoIter.remaining pairs }
    ensures { IfOk result (λ map. (all : List (K × V)) × GivesAll I.into_iter_gives I.IntoIter.next_gives pairs all × (entries map ≡ extended K.cmp [] all)) }
{
    BTreeMap::try_from_iterator(alloc, pairs)
}

/// Reads a chunk of as many bytes as are asked for, or of all that the source has.
pub fn read_chunk<R: Read>(alloc: Global, src: &mut R, length: u64) -> io::Result<TryVec<u8>>
    ensures { IfOk result (λ chunk. IfSome (R.remaining src.old) (λ left. chunk.items ≡ front left length)) }
{
    let mut chunk = TryVec::new(alloc);
    try_read_up_to(src, length, &mut chunk)?; // where the room is refused, nothing is read
    Ok(chunk)
}

/// Counts a tag, and answers how often it came: once more than before. Refused, the counts are as they were.
pub fn count_tag(counts: &mut TryHashMap<u64, u64>, tag: u64) -> Result<u64, TryReserveError>
    requires { unwrap_or (hashed_value_at ⟦<u64 as PartialEq>⟧.eq tag counts.old.pairs) 0 < u64.MAX }
    ensures counted { IfOk result (λ count. count ≡ unwrap_or (hashed_value_at ⟦<u64 as PartialEq>⟧.eq tag counts.old.pairs) 0 + 1) }
    ensures kept { IfOk result (λ count. hashed_value_at ⟦<u64 as PartialEq>⟧.eq tag counts.new.pairs ≡ Some count) }
    ensures unchanged { OnErr result (counts.new.pairs ≡ counts.old.pairs) }
{
    let count = counts.get(&tag).copied().unwrap_or(0) + 1;
    counts.insert(tag, count)?;
    Ok(count)
}

/// The text of a number, in a room of 20 bytes, which the greatest one needs.
pub fn label(alloc: Global, number: u64) -> Result<String, TryReserveError>
    ensures { IfOk result (λ text. string_bytes text ≡ decimal number) }
{
    try_format(alloc, 20, &number)
}
