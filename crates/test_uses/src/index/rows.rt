//! Rows put in, put over others and taken out, in an order without a pattern that one sees, beside a plain array of them.
use super::plain::{IDS, KEYS, Part, Parts, Plain, is_like};
use std::test::Fail;

// The next of a sequence of numbers.
fn next(seed: u64) -> u64 {
    seed.wrapping_mul(6_364_136_223_846_793_005)
        .wrapping_add(1_442_695_040_888_963_407)
}

// One step of both: three times in four a row is put in or over another, else the one at the id is taken out.
fn step(table: &mut Parts, plain: &mut Plain, seed: u64) -> bool {
    let at = (seed >> 32) as usize % IDS;
    let id = at as u64;
    let old = plain[at];
    if (seed >> 20) % 4 == 0 {
        plain[at] = None;
        return table.remove(id) == old;
    }
    let row = Part {
        first: (seed >> 40) % KEYS,
        second: (seed >> 50) % KEYS,
        value: seed,
    };
    plain[at] = Some(row);
    match table.try_insert(id, row.first, row.second, row.value) {
        Ok(given) => given == old,
        Err(_refused) => false,
    }
}

#[test]
fn a_table_has_what_a_plain_list_has(rt: HostRuntime) {
    let mut table: Parts = Parts::new(rt.alloc());
    let mut plain = [None; IDS];
    let mut seed = 7u64;
    let mut is_right = is_like(&table, &plain);
    for _ in 0..400 {
        seed = next(seed);
        is_right = is_right && step(&mut table, &mut plain, seed) && is_like(&table, &plain);
    }
    assert!(rt; is_right);
}

#[test]
fn a_row_is_replaced(rt: HostRuntime) {
    let mut table: Parts = Parts::new(rt.alloc());
    let is_in = table.try_insert(4, 1, 2, 10).is_ok();
    assert!(rt; is_in && table.len() == 1);
    let old = match table.try_insert(4, 3, 2, 11) {
        Ok(old) => old,
        Err(_refused) => None,
    };
    let first = Part {
        first: 1,
        second: 2,
        value: 10,
    };
    let second = Part {
        first: 3,
        second: 2,
        value: 11,
    };
    assert!(rt; old == Some(first) && table.len() == 1);
    let mut plain = [None; IDS];
    plain[4] = Some(second);
    assert!(rt; is_like(&table, &plain));
    assert!(rt; table.remove(5).is_none() && table.remove(4) == Some(second));
    plain[4] = None;
    assert!(rt; is_like(&table, &plain) && table.remove(4).is_none());
}

#[test]
fn a_value_is_set(rt: HostRuntime) {
    let mut table: Parts = Parts::new(rt.alloc());
    let is_in = table.try_insert(4, 1, 2, 10).is_ok() && table.try_insert(6, 1, 3, 11).is_ok();
    assert!(rt; is_in);
    let old = table.set_value(4, 12);
    let refused = table.set_value(5, 13);
    assert!(rt; old == Ok(10) && refused == Err(13));
    let mut plain = [None; IDS];
    plain[4] = Some(Part {
        first: 1,
        second: 2,
        value: 12,
    });
    plain[6] = Some(Part {
        first: 1,
        second: 3,
        value: 11,
    });
    assert!(rt; is_like(&table, &plain));
}

#[test]
fn shows_its_rows_by_their_ids(rt: HostRuntime) -> Result<(), Fail> {
    let mut table: Parts = Parts::new(rt.alloc());
    let is_in = table.try_insert(9, 1, 2, 3).is_ok() && table.try_insert(4, 5, 6, 7).is_ok();
    assert!(rt; is_in);
    let text = format!(in rt.alloc(); "{table:?}")?;
    assert!(rt;
        text.as_str()
            == "{4: Keyed { first: 5, second: 6, value: 7 }, 9: Keyed { first: 1, second: 2, value: 3 }}"
    );
    Ok(())
}

// The sum of the ids and of the values.
fn sum(table: &Parts) -> u64 {
    let mut sum = 0u64;
    for (id, row) in table {
        sum = sum.wrapping_add(*id).wrapping_add(row.value);
    }
    sum
}

#[test]
fn a_cleared_table_has_no_row_and_no_key(rt: HostRuntime) {
    let mut table: Parts = Parts::new(rt.alloc());
    let are_in = table.try_insert(4, 1, 2, 10).is_ok() && table.try_insert(5, 1, 3, 20).is_ok();
    assert!(rt; are_in && sum(&table) == 39);
    table.clear();
    assert!(rt; is_like(&table, &[None; IDS]) && sum(&table) == 0);
    let is_in = table.try_insert(4, 1, 2, 30).is_ok();
    assert!(rt; is_in && sum(&table) == 34 && table.len() == 1);
}
