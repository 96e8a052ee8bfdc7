//! Laws of lists of pairs by a lawful order of the keys. Each function does nothing: its contract is the law.
ghost use Rattle.std.specs.Prelude.{◌≡◌, ◌-◌, List, [], ◌∷◌, ◌++◌, length, take, drop, filter, option_to_list, All, IsTrue};
ghost use Rattle.std.specs.declared.cmp.Ordering.TheVariants.{Less};
ghost use Rattle.std.specs.declared.ops.Bound.{Bound};
ghost use Rattle.std.specs.declared.ops.Bound.TheVariants.{Unbounded};
ghost use Rattle.fc_base.specs.Ascending.{IsAscending};
ghost use Rattle.fc_base.specs.OneKey.{put, cut};
ghost use Rattle.fc_base.specs.Parts.{below, above, at};
ghost use Rattle.fc_base.specs.Ranges.{starts, stops, is_range, within};

/// An ascending list is what is below a key, the pair at that key, if there is one, and what is above it.
#[tactic(auto, using(crate::proofs::Laws::parts_joined))]
pub fn parts_of_list<K: Ord, V>()
    ensures { (s : List (K × V)) (k : K) → IsAscending K.cmp s → below K.cmp s k ++ (option_to_list (at K.cmp s k) ++ above K.cmp s k) ≡ s }
{}

/// An ascending list in which a pair is put, or from which one is cut, is ascending.
#[tactic(auto, using(crate::proofs::Laws::ascending_put, crate::proofs::Laws::ascending_cut))]
pub fn still_ascending<K: Ord, V>()
    ensures put { (s : List (K × V)) (k : K) (v : V) → IsAscending K.cmp s → IsAscending K.cmp (put K.cmp s k v) }
    ensures cut { (s : List (K × V)) (k : K) → IsAscending K.cmp s → IsAscending K.cmp (cut K.cmp s k) }
{}

/// After the first pair of an ascending list stand greater keys, in ascending order, and a cut at the first key leaves just
/// these.
#[tactic(auto, using(crate::proofs::Laws::cut_first))]
pub fn first_pair<K: Ord, V>()
    ensures greater { (s rest : List (K × V)) (k : K) (v : V) → IsAscending K.cmp s → s ≡ (k, v) ∷ rest → All (λ e. K.cmp k e.0 ≡ Less) rest }
    ensures ascending { (s rest : List (K × V)) (k : K) (v : V) → IsAscending K.cmp s → s ≡ (k, v) ∷ rest → IsAscending K.cmp rest }
    ensures left { (s rest : List (K × V)) (k : K) (v : V) → IsAscending K.cmp s → s ≡ (k, v) ∷ rest → cut K.cmp s k ≡ rest }
{}

/// Before the last pair of an ascending list stand smaller keys, in ascending order, and a cut at the last key leaves just
/// these.
#[tactic(auto, using(crate::proofs::Laws::last_is_greatest, crate::proofs::Laws::ascending_lead, crate::proofs::Laws::cut_last))]
pub fn last_pair<K: Ord, V>()
    ensures smaller { (s front : List (K × V)) (k : K) (v : V) → IsAscending K.cmp s → s ≡ front ++ (k, v) ∷ [] → All (λ e. K.cmp e.0 k ≡ Less) front }
    ensures ascending { (s front : List (K × V)) (k : K) (v : V) → IsAscending K.cmp s → s ≡ front ++ (k, v) ∷ [] → IsAscending K.cmp front }
    ensures left { (s front : List (K × V)) (k : K) (v : V) → IsAscending K.cmp s → s ≡ front ++ (k, v) ∷ [] → cut K.cmp s k ≡ front }
{}

/// No bounds leave all pairs; each key that is left lies within the bounds; and what is left of an ascending list is ascending.
#[tactic(auto, using(crate::proofs::Laws::within_all, crate::proofs::Laws::ascending_within))]
pub fn pairs_within<K: Ord, V>()
    ensures all { (s : List (K × V)) → within K.cmp Unbounded Unbounded s ≡ s }
    ensures bounds { (lo hi : Bound K) (s : List (K × V)) → All (λ e. IsTrue (starts K.cmp lo e.0) × IsTrue (stops K.cmp hi e.0)) (within K.cmp lo hi s) }
    ensures ascending { (lo hi : Bound K) (s : List (K × V)) → IsAscending K.cmp s → IsAscending K.cmp (within K.cmp lo hi s) }
{}

/// The places of an ascending list from where a range starts up to where it ends hold the pairs within its bounds.
pub fn places_of_range<K: Ord, V>()
    ensures { (lo hi : Bound K) (s : List (K × V)) → IsAscending K.cmp s → IsTrue (is_range K.cmp lo hi) → let front = length s - length (filter (λ e. starts K.cmp lo e.0) s) in let back = length (filter (λ e. stops K.cmp hi e.0) s) in take (back - front) (drop front s) ≡ within K.cmp lo hi s }
{}
