//! What a cache holds at a key.

/// A value, and what it costs of the budget.
#[derive(Drop)]
pub struct Held<V> {
    pub value: V,
    pub cost: usize,
}
