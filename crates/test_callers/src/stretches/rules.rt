//! Which numbers go.

/// The numbers from the first on and below the last, of which those go that the kind says.
#[derive(Clone, Copy)]
pub struct Rule {
    pub first: u64,
    pub last: u64,
    pub kind: u64,
}

pub fn lies_within(rule: Rule, number: u64) -> bool {
    rule.first <= number && number < rule.last
}

/// Whether a number within goes: all, none, each second, or all but each third.
pub fn goes(rule: Rule, number: u64) -> bool {
    match rule.kind {
        0 => true,
        1 => false,
        2 => number & 1 == 0,
        _ => number % 3 != 0,
    }
}

/// How many of the numbers below the end lie within.
pub fn count_within(rule: Rule, end: u64) -> usize {
    let mut count = 0usize;
    for number in 0..end {
        if lies_within(rule, number) {
            count = count.wrapping_add(1);
        }
    }
    count
}

/// How many of them go.
pub fn count_gone(rule: Rule, end: u64) -> usize {
    let mut count = 0usize;
    for number in 0..end {
        if lies_within(rule, number) && goes(rule, number) {
            count = count.wrapping_add(1);
        }
    }
    count
}

/// The rule of a number of these: each kind at the same place in turn.
pub fn rule_of(first: u64, last: u64, kind: u64) -> Rule {
    Rule { first, last, kind }
}
