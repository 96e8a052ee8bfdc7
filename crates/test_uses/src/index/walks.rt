//! Walks by second keys: kinds of bounds, and both ends.
use super::plain::Parts;
use fc_set::set::Range;
use std::ops::Bound;
use std::test::Fail;

// Rows 0 to 5 with first keys 2, 4, 6, 2, 4, 6, and second keys that fall as the ids rise.
fn six(table: &mut Parts) -> bool {
    let firsts = [2, 4, 6, 2, 4, 6];
    for id in 0..6u64 {
        if table
            .try_insert(id, firsts[id as usize], 9 - id, 0)
            .is_err()
        {
            return false;
        }
    }
    true
}

// Whether the walk has these keys and ids, and nothing else.
fn has(walk: Range<'_, (u64, u64)>, all: &[(u64, u64)]) -> bool {
    let mut walk = walk;
    for item in all {
        match walk.next() {
            Some(given) if *given == *item => (),
            _ => return false,
        }
    }
    walk.next().is_none()
}

#[test]
fn bounds_are_of_any_kind(rt: HostRuntime) {
    let mut table: Parts = Parts::new(rt.alloc());
    assert!(rt; six(&mut table));
    let at = Bound::Included;
    let after = Bound::Excluded;
    let open = Bound::Unbounded;
    assert!(rt;
        has(
            table.by_first((open, open)),
            &[(2, 0), (2, 3), (4, 1), (4, 4), (6, 2), (6, 5)]
        )
    );
    assert!(rt; has(table.by_first((at(4), at(4))), &[(4, 1), (4, 4)]));
    assert!(rt;
        has(
            table.by_first((at(2), after(6))),
            &[(2, 0), (2, 3), (4, 1), (4, 4)]
        )
    );
    assert!(rt;
        has(
            table.by_first((after(2), at(6))),
            &[(4, 1), (4, 4), (6, 2), (6, 5)]
        )
    );
    assert!(rt; has(table.by_first((after(4), open)), &[(6, 2), (6, 5)]));
    assert!(rt; has(table.by_first((open, after(4))), &[(2, 0), (2, 3)]));
    assert!(rt;
        has(table.by_first((at(3), at(3))), &[]) && has(table.by_first((at(7), open)), &[])
    );
    // Bounds that are no range.
    assert!(rt;
        has(table.by_first((at(6), at(2))), &[]) && has(table.by_first((after(4), after(4))), &[])
    );
}

#[test]
fn both_keys_order_the_rows(rt: HostRuntime) {
    let mut table: Parts = Parts::new(rt.alloc());
    assert!(rt; six(&mut table));
    let open = Bound::Unbounded;
    assert!(rt;
        has(
            table.by_second((open, open)),
            &[(4, 5), (5, 4), (6, 3), (7, 2), (8, 1), (9, 0)]
        )
    );
    assert!(rt;
        has(
            table.by_second((Bound::Included(6), Bound::Excluded(8))),
            &[(6, 3), (7, 2)]
        )
    );
}

#[test]
fn a_walk_goes_from_both_ends(rt: HostRuntime) {
    let mut table: Parts = Parts::new(rt.alloc());
    assert!(rt; six(&mut table));
    let mut walk = table.by_first((Bound::Included(2), Bound::Included(4)));
    let last = walk.next_back().copied();
    let first = walk.next().copied();
    assert!(rt; last == Some((4, 4)) && first == Some((2, 0)));
    let last = walk.next_back().copied();
    let first = walk.next().copied();
    assert!(rt; last == Some((4, 1)) && first == Some((2, 3)));
    assert!(rt; walk.next().is_none() && walk.next_back().is_none());
}
