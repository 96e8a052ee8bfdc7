//! What a row has beside its id.

/// A value with the two second keys of its row.
#[derive(Clone, Copy, Debug, PartialEq, Eq, Drop)]
pub struct Keyed<A, B, V> {
    pub first: A,
    pub second: B,
    pub value: V,
}
