//! Refused calls as errors of `anyhow`. A leaf of such a map takes 15 pairs of 16 bytes, and a list of one number 8 bytes or more.
use callers_in_pages::errors::{once, paired};
use fallible_collections::btree::BTreeMap;
use fallible_collections::{Handle, TryVec};
use fc_budget::Budget;
use std::alloc::{AllocError, Global};
use std::test::Fail;

const LEAF: usize = 15 * 16;

#[test]
fn both_pairs_are_put_in(rt: HostRuntime) -> Result<(), Fail> {
    let mut counts = BTreeMap::new(rt.alloc());
    let mut numbers = BTreeMap::new(rt.alloc());
    assert!(rt; paired(&mut counts, &mut numbers, 7, 70).is_ok());
    assert!(rt; counts.get(&7).copied() == Some(70) && numbers.get(&70).copied() == Some(7));
    Ok(())
}

// The text of the error where a pair is put into two maps in a budget of so many bytes, and whether both are then empty.
fn refused_pair(alloc: Global, bytes: usize) -> Result<Option<String>, AllocError> {
    let budget = Budget::new(alloc, bytes);
    let mut counts = BTreeMap::new(&budget);
    let mut numbers = BTreeMap::new(&budget);
    match paired(&mut counts, &mut numbers, 7, 70) {
        Err(error) if counts.is_empty() && numbers.is_empty() => Ok(Some(format!(in alloc;
            "{error}"
        )?)),
        _ => Ok(None),
    }
}

fn is_text(text: Option<String>, wanted: &str) -> bool {
    match text {
        Some(text) => text.as_str() == wanted,
        None => false,
    }
}

#[test]
fn a_refused_pair_tells_why_and_leaves_both_maps(rt: HostRuntime) -> Result<(), Fail> {
    let wanted = "the allocator refused the memory";
    assert!(rt; is_text(refused_pair(rt.alloc(), 0)?, wanted));
    assert!(rt; is_text(refused_pair(rt.alloc(), 2 * LEAF - 1)?, wanted));
    assert!(rt; refused_pair(rt.alloc(), 2 * LEAF)?.is_none());
    Ok(())
}

fn listed<A: Handle>(made: &anyhow::Result<TryVec<u64, A>>, wanted: &[u64]) -> bool {
    match made {
        Ok(list) => list.as_slice() == wanted,
        Err(_) => false,
    }
}

#[test]
fn a_number_that_comes_twice_is_listed_once(rt: HostRuntime) {
    assert!(rt; listed(&once(rt.alloc(), &[3, 1, 3, 2, 1]), &[3, 1, 2]));
}

// The error and its cause, where a map of one number fits and the list doesn't.
fn refused_list(alloc: Global) -> Result<Option<String>, AllocError> {
    let budget = Budget::new(alloc, 15 * 8 + 7);
    let made = once(&budget, &[3]);
    match made {
        Ok(_) => Ok(None),
        Err(error) => Ok(Some(format!(in alloc; "{error:#}")?)),
    }
}

#[test]
fn a_refused_list_tells_what_the_memory_was_for(rt: HostRuntime) -> Result<(), Fail> {
    let wanted = "no room in the list: the allocator refused the memory";
    assert!(rt; is_text(refused_list(rt.alloc())?, wanted));
    Ok(())
}
