//! What the keys of a map are searched by.
ghost use Rattle.std.specs.Prelude.{◌≡◌, ℕ, List};
ghost use Rattle.std.specs.declared.cmp.Ordering.{Ordering};
ghost use Rattle.std.specs.Cmp.Lexicographic.{slice_cmp, lists_total, nat_list_cmp_total};
ghost use Rattle.std.specs.Ordering.{nat_cmp};
ghost use Rattle.std.specs.String.{string_bytes};
ghost use Rattle.fc_base.specs.Query.{IsQueryOrder, text_order, items_order};
ghost use Rattle.fc_base.specs.Viewed.{viewed, own_order};

use std::cmp::Ordering;

/// What keys can be searched by: a reference to a key, or a borrowed form of it, as `&str` of a `String`. Upstream: `Borrow<Q>`.
pub trait Query<K: Ord>: Copy {
    // What is sought, as contracts see it: a key, the bytes of a text, or the items of a slice.
    ghost Sought: { Type 0 };

    ghost sought: { Self → Sought };
    // How a key stands to what is sought.
    ghost order: { K → Sought → Ordering };

    /// How the key stands to the query.
    fn order_of(&self, key: &K) -> Ordering
        ensures { result ≡ order key.now (sought self.now) };

    // The keys below what is sought come first, then those equal to it, then those above it.
    ghost fits: { IsQueryOrder K.cmp order };
}

impl<K: Ord> Query<K> for &K {
    ghost Sought = { K };

    ghost sought = { λ q. q.now };

    ghost order = { K.cmp };

    ghost fits = { own_order K.total };

    fn order_of(&self, key: &K) -> Ordering {
        key.cmp(*self)
    }
}

/// A `String` by its text.
impl Query<String> for &str {
    ghost Sought = { List ℕ };

    ghost sought = { λ q. q.now };

    ghost order = { text_order };

    ghost fits = { viewed nat_list_cmp_total string_bytes (λ text. text) };

    fn order_of(&self, key: &String) -> Ordering {
        compare_slices(key.as_bytes(), self.as_bytes())
    }
}

/// A `&str` by a text.
impl Query<&str> for &str {
    ghost Sought = { List ℕ };

    ghost sought = { λ q. q.now };

    ghost order = { λ text bytes. slice_cmp nat_cmp text.now bytes };

    ghost fits = { viewed nat_list_cmp_total (λ text. text.now) (λ text. text) };

    fn order_of(&self, key: &&str) -> Ordering {
        compare_slices(key.as_bytes(), self.as_bytes())
    }
}

/// A `Vec` by its items.
impl<T: Ord> Query<Vec<T>> for &[T] {
    ghost Sought = { List T };

    ghost sought = { λ q. q.now };

    ghost order = { items_order T.cmp };

    ghost fits = { viewed (lists_total T.total) (λ v. v.items) (λ items. items) };

    fn order_of(&self, key: &Vec<T>) -> Ordering {
        compare_slices(key.as_slice(), *self)
    }
}

// How two slices stand to one another, by their items from the first on.
fn compare_slices<'a, T: Ord>(a: &'a [T], b: &'a [T]) -> Ordering
    ensures { result ≡ slice_cmp T.cmp a.now b.now }
{
    a.cmp(b)
}
