//! How two sets lie to one another.
ghost use Rattle.std.specs.Prelude.{◌≡◌, ◌↔◌, [], IsTrue};
ghost use Rattle.fc_set.specs.Items.{items};
ghost use Rattle.fc_set.specs.Operations.{difference, intersection};

use super::BTreeSet;
use fc_base::Handle;

impl<T: Ord, A: Handle> BTreeSet<T, A> {
    /// Whether no item of this set has an equal in the other: exactly where `intersection` gives nothing. Upstream:
    /// `BTreeSet::is_disjoint`.
    pub fn is_disjoint(&self, other: &Self) -> bool
        ensures { IsTrue result ↔ (intersection T.cmp (items self.now) (items other.now) ≡ []) }
    {
        self.intersection(other).next().is_none()
    }

    /// Whether each item of this set has an equal in the other: exactly where `difference` gives nothing. A longer set is none, and
    /// nothing is compared. Upstream: `BTreeSet::is_subset`.
    pub fn is_subset(&self, other: &Self) -> bool
        ensures { IsTrue result ↔ (difference T.cmp (items self.now) (items other.now) ≡ []) }
    {
        if self.len() > other.len() {
            return false;
        }
        self.difference(other).next().is_none()
    }

    /// Whether each item of the other set has an equal in this one: `is_subset` the other way round. Upstream:
    /// `BTreeSet::is_superset`.
    pub fn is_superset(&self, other: &Self) -> bool
        ensures { IsTrue result ↔ (difference T.cmp (items other.now) (items self.now) ≡ []) }
    {
        other.is_subset(self)
    }
}
