//! Nested boxes of media: each at its depth and its first byte, with the byte after its last; and how many there are of each kind.
ghost use Rattle.std.specs.Prelude.{ℕ, ◌≡◌, ◌<◌, ◌≤◌, ◌+◌, ◌⊎◌, ◌↔◌, length, IfSome, OnOk, OnErr, None, Some};
ghost use Rattle.std.specs.declared.cmp.Ordering.TheVariants.{Less, Equal, Greater};
ghost use Rattle.fc_laws.specs.Words.{entries, at, value_at, cut};

use fc_base::TryReserveError;
use fc_map::map::BTreeMap;
use std::cmp::Ordering;

/// How a place in a tree stands to another: the depth decides, and at one depth the byte.
#[tactic(auto, using(fc_laws::proofs::Laws::tuple_less, fc_laws::proofs::Laws::tuple_equal, fc_laws::proofs::Laws::tuple_greater))]
pub fn order_of_places<D: Ord, B: Ord>(place: &(D, B), other: &(D, B)) -> Ordering
    ensures less { (result ≡ Less) ↔ ((D.cmp place.now.0 other.now.0 ≡ Less) ⊎ ((D.cmp place.now.0 other.now.0 ≡ Equal) × (B.cmp place.now.1 other.now.1 ≡ Less))) }
    ensures equal { (result ≡ Equal) ↔ ((D.cmp place.now.0 other.now.0 ≡ Equal) × (B.cmp place.now.1 other.now.1 ≡ Equal)) }
    ensures greater { (result ≡ Greater) ↔ ((D.cmp place.now.0 other.now.0 ≡ Greater) ⊎ ((D.cmp place.now.0 other.now.0 ≡ Equal) × (B.cmp place.now.1 other.now.1 ≡ Greater))) }
{
    place.cmp(other)
}

/// The box of a depth that holds a byte: the last of that depth that begins at the byte or before it, where it ends after the byte.
pub fn box_holding(
    boxes: &BTreeMap<(u64, u64), u64>,
    depth: u64,
    byte: u64,
) -> Option<((u64, u64), u64)>
    ensures there { IfSome result (λ found. at ⟦<(u64, u64) as Ord>⟧.cmp (entries boxes.now) found.0 ≡ Some found) }
    ensures side { IfSome result (λ found. (found.0.0 ≡ depth) × (found.0.1 ≤ byte)) }
    ensures holds { IfSome result (λ found. byte < found.1) }
{
    let (place, end) = boxes.last_at_or_before(&(depth, byte))?;
    if place.0 == depth && byte < *end {
        Some((*place, *end))
    } else {
        None
    }
}

/// The first box of a depth that begins after a byte, if there is one.
pub fn box_after(
    boxes: &BTreeMap<(u64, u64), u64>,
    depth: u64,
    byte: u64,
) -> Option<((u64, u64), u64)>
    ensures there { IfSome result (λ found. at ⟦<(u64, u64) as Ord>⟧.cmp (entries boxes.now) found.0 ≡ Some found) }
    ensures side { IfSome result (λ found. (found.0.0 ≡ depth) × (byte < found.0.1)) }
{
    let (place, end) = boxes.first_after(&(depth, byte))?;
    if place.0 == depth {
        Some((*place, *end))
    } else {
        None
    }
}

/// The last box of a depth that begins before a byte, if there is one.
pub fn box_before(
    boxes: &BTreeMap<(u64, u64), u64>,
    depth: u64,
    byte: u64,
) -> Option<((u64, u64), u64)>
    ensures there { IfSome result (λ found. at ⟦<(u64, u64) as Ord>⟧.cmp (entries boxes.now) found.0 ≡ Some found) }
    ensures side { IfSome result (λ found. (found.0.0 ≡ depth) × (found.0.1 < byte)) }
{
    let (place, end) = boxes.last_before(&(depth, byte))?;
    if place.0 == depth {
        Some((*place, *end))
    } else {
        None
    }
}

/// The first box of a depth that begins at a byte or after it, if there is one.
pub fn box_from(
    boxes: &BTreeMap<(u64, u64), u64>,
    depth: u64,
    byte: u64,
) -> Option<((u64, u64), u64)>
    ensures there { IfSome result (λ found. at ⟦<(u64, u64) as Ord>⟧.cmp (entries boxes.now) found.0 ≡ Some found) }
    ensures side { IfSome result (λ found. (found.0.0 ≡ depth) × (byte ≤ found.0.1)) }
{
    let (place, end) = boxes.first_at_or_after(&(depth, byte))?;
    if place.0 == depth {
        Some((*place, *end))
    } else {
        None
    }
}

/// Takes the box out that begins at a place. Each box that is left was there before, at another place.
pub fn close_box(boxes: &mut BTreeMap<(u64, u64), u64>, place: (u64, u64)) -> Option<u64>
    ensures left { (other : ℕ × ℕ) (end : ℕ) → value_at ⟦<(u64, u64) as Ord>⟧.cmp (entries boxes.new) other ≡ Some end → ¬ (other ≡ place) × (value_at ⟦<(u64, u64) as Ord>⟧.cmp (entries boxes.old) other ≡ Some end) }
    ensures rest { entries boxes.new ≡ cut ⟦<(u64, u64) as Ord>⟧.cmp (entries boxes.old) place }
{
    boxes.remove(&place)
}

/// Counts a box of a kind: at a kind that was counted before there are as many counts, and else one more. Refused, the counts are
/// as they were.
#[tactic(auto, using(fc_laws::proofs::Laws::none_at, fc_laws::proofs::Laws::length_put_new))]
pub fn count_kind<K: Ord + Drop>(
    counts: &mut BTreeMap<K, u64>,
    kind: K,
) -> Result<(), TryReserveError>
    ensures counted { OnOk result ((old : ℕ) → value_at K.cmp (entries counts.old) kind ≡ Some old → length (entries counts.new) ≡ length (entries counts.old)) }
    ensures new { OnOk result (value_at K.cmp (entries counts.old) kind ≡ None → length (entries counts.new) ≡ length (entries counts.old) + 1) }
    ensures unchanged { OnErr result (counts.new ≡ counts.old) }
{
    if let Some(count) = counts.get_mut(&kind) {
        *count = count.saturating_add(1);
        return Ok(());
    }
    counts.try_insert(kind, 1)?;
    Ok(())
}
