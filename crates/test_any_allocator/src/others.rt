//! Boxes, hashed maps, bounded reading and printing in a budget.
use crate::least::all_but;
use crate::sizes::AMPLE;
use fc_base::{TryBox, TryClone, TryReserveError};
use fc_budget::Budget;
use fc_hash::TryHashMap;
use fc_vec::TryVec;
use fc_vec::format::try_format;
use fc_vec::read::try_read_up_to;
use std::alloc::Global;
use std::test::Fail;

// Whether a box is made, whether a copy of it too, and how many bytes are out then.
fn boxed(budget: &Budget<Global>) -> (bool, bool, usize) {
    match TryBox::try_new(budget, 7u64) {
        Ok(first) => {
            let copy = first.try_clone();
            (true, copy.is_ok(), budget.used())
        }
        Err(_) => (false, false, budget.used()),
    }
}

#[test]
fn a_box_is_made_where_its_bytes_fit(rt: HostRuntime) {
    let mut seen = [(false, false, 0, 0); 4];
    for i in 0..4 {
        let budget = Budget::new(rt.alloc(), [7, 8, 15, 16][i]);
        let (is_made, is_copied, used) = boxed(&budget);
        seen[i] = (is_made, is_copied, used, budget.used());
    }
    assert!(rt;
        seen == [
            (false, false, 0, 0),
            (true, false, 8, 0),
            (true, false, 8, 0),
            (true, true, 16, 0)
        ]
    );
}

type Hashed<'a> = TryHashMap<u64, u64, &'a Budget<Global>>;

fn hashed(budget: &Budget<Global>, count: u64) -> Result<Hashed<'_>, TryReserveError> {
    let mut map = TryHashMap::default(budget);
    for number in 0..count {
        map.insert(number, number)?;
    }
    Ok(map)
}

// Whether the map has the numbers below the count, each with itself, and nothing else.
fn has_below(map: &Hashed<'_>, count: u64) -> bool {
    for number in 0..count {
        if map.get(&number) != Some(&number) {
            return false;
        }
    }
    map.len() as u64 == count
}

// Whether the number goes in, and each refusal before left the pairs: a table or a column that has grown may stay.
fn goes_in(budget: &Budget<Global>, number: u64) -> Result<bool, TryReserveError> {
    let mut map = hashed(budget, number)?;
    for step in 0..1000usize {
        let _rest = all_but(budget, step.wrapping_mul(8))?;
        match map.insert(number, number) {
            Ok(old) => return Ok(old.is_none() && has_below(&map, number.wrapping_add(1))),
            Err(TryReserveError::AllocError) if has_below(&map, number) => (),
            Err(_) => return Ok(false),
        }
    }
    Ok(false)
}

// Some of these make it grow.
#[test]
fn a_refused_insertion_leaves_the_hashed_map(rt: HostRuntime) -> Result<(), Fail> {
    let budget = Budget::new(rt.alloc(), AMPLE);
    for number in 0..60u64 {
        assert!(rt; goes_in(&budget, number)?);
    }
    assert!(rt; budget.used() == 0);
    Ok(())
}

const TEXT: &[u8] = b"a source of fifty bytes, of which 48 are read here";

// How many bytes are read of a source into a buffer in the budget, or none where it is refused, and whether they are the source's.
fn is_read(budget: &Budget<Global>) -> (usize, bool) {
    let mut source = TEXT;
    let mut buffer = TryVec::new(budget);
    match try_read_up_to(&mut source, 48, &mut buffer) {
        Ok(count) => (count, buffer.as_slice() == &TEXT[..48]),
        Err(_) => (0, buffer.is_empty() && source.len() == TEXT.len()),
    }
}

// The text of a number whose room is asked for first.
fn is_printed(budget: &Budget<Global>) -> bool {
    match try_format(budget, 5, &12345u64) {
        Ok(text) => text.as_str() == "12345",
        Err(_) => false,
    }
}

#[test]
fn what_is_read_and_printed_counts_against_the_budget(rt: HostRuntime) {
    let narrow = Budget::new(rt.alloc(), 47);
    let wide = Budget::new(rt.alloc(), 48);
    assert!(rt; (is_read(&narrow), is_read(&wide)) == ((0, true), (48, true)));
    let none = Budget::new(rt.alloc(), 4);
    assert!(rt; is_printed(&wide) && !is_printed(&none));
    assert!(rt; (narrow.used(), wide.used(), none.used()) == (0, 0, 0));
}
