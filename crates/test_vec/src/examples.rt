//! Examples of the calls of vectors, as the pages show them.
use fc_vec::{FallibleCopyVec, FallibleVec, TryVec, try_from_elem};
use std::test::Fail;

#[test]
fn one_item(rt: HostRuntime) -> Result<(), Fail> {
    let alloc = rt.alloc();
    // example: TryVec::new, TryVec::push, TryVec::pop, TryVec::len, TryVec::is_empty, TryVec::as_slice, TryVec::clear
    let mut v = TryVec::new(alloc);
    v.push(3u64)?;
    v.push(5)?;
    assert_eq!(rt; (v.as_slice(), v.len()), ([3, 5].as_slice(), 2));
    assert_eq!(rt; v.pop(), Some(5));
    v.clear();
    assert!(rt; v.is_empty());
    // end
    Ok(())
}

#[test]
fn room_first(rt: HostRuntime) -> Result<(), Fail> {
    let alloc = rt.alloc();
    // example: TryVec::with_capacity, TryVec::capacity, TryVec::reserve, TryVec::reserve_exact, TryVec::shrink_to_fit
    let mut v = TryVec::with_capacity(alloc, 4)?;
    v.reserve(10)?; // so many pushes are then never refused
    v.push(7u64).unwrap();
    v.reserve_exact(20)?;
    assert!(rt; v.capacity() >= 21);
    v.shrink_to_fit();
    // end
    assert_eq!(rt; v.len(), 1);
    Ok(())
}

#[test]
fn places(rt: HostRuntime) -> Result<(), Fail> {
    let alloc = rt.alloc();
    // example: TryVec::try_from_slice, TryVec::insert, TryVec::remove, TryVec::swap_remove, TryVec::truncate
    let mut v = TryVec::try_from_slice(alloc, &[1u64, 2, 3, 4])?;
    v.insert(0, 9)?; // 9 1 2 3 4
    assert_eq!(rt; v.remove(1), 1); // 9 2 3 4
    assert_eq!(rt; v.swap_remove(0), 9); // 4 2 3
    v.truncate(2);
    assert!(rt; v.as_slice() == [4, 2].as_slice());
    // end
    Ok(())
}

#[test]
fn copies_of_text(rt: HostRuntime) -> Result<(), Fail> {
    let alloc = rt.alloc();
    // example: TryVec::try_from_str, TryVec::extend_from_slice, TryVec::contains
    let mut bytes = TryVec::try_from_str(alloc, "key")?;
    bytes.extend_from_slice(b"=1")?;
    assert_eq!(rt; bytes.as_slice(), b"key=1".as_slice());
    assert!(rt; bytes.contains(&b'='));
    // end
    Ok(())
}

#[test]
fn joined_and_cut(rt: HostRuntime) -> Result<(), Fail> {
    let alloc = rt.alloc();
    let mut other = TryVec::new(alloc);
    // example: TryVec::default, TryVec::append, TryVec::split_off, TryVec::into_vec
    let mut v = TryVec::default(alloc); // as `new`
    other.push(3u64)?;
    other.push(5)?;
    v.append(&mut other)?;
    let rest = v.split_off(1)?;
    assert!(rt; rest.as_slice() == [5].as_slice());
    let own = v.into_vec(); // Rattle's own `Vec`
    assert_eq!(rt; (own.len(), other.is_empty()), (1, true));
    // end
    Ok(())
}

#[test]
fn lengths(rt: HostRuntime) -> Result<(), Fail> {
    let alloc = rt.alloc();
    // example: TryVec::resize, TryVec::resize_with, TryVec::extend
    let mut v = TryVec::new(alloc);
    v.resize(2, 7u64)?;
    v.resize_with(3, || 1)?;
    v.extend([4, 5])?;
    assert!(rt; v.as_slice() == [7, 7, 1, 4, 5].as_slice());
    // end
    Ok(())
}

#[test]
fn one_of_several(rt: HostRuntime) -> Result<(), Fail> {
    let alloc = rt.alloc();
    let mut parts = TryVec::new(alloc);
    // example: TryVec::concat
    parts.push(TryVec::try_from_slice(alloc, &[1u64, 2])?)?;
    parts.push(TryVec::try_from_slice(alloc, &[3])?)?;
    assert!(rt; parts.concat()?.as_slice() == [1, 2, 3].as_slice());
    // end
    Ok(())
}

#[test]
fn ends_and_places(rt: HostRuntime) -> Result<(), Fail> {
    let alloc = rt.alloc();
    // example: TryVec::first, TryVec::last, TryVec::get, TryVec::get_mut, TryVec::first_mut, TryVec::last_mut
    let mut v = TryVec::try_from_slice(alloc, &[1u64, 2, 3])?;
    assert_eq!(rt; (v.first(), v.last(), v.get(7)), (Some(&1), Some(&3), None));
    if let Some(item) = v.get_mut(1) {
        *item = 9;
    }
    let _first = v.first_mut().map(|item| *item = 8);
    let _last = v.last_mut().map(|item| *item = 7);
    // end
    assert!(rt; v.as_slice() == [8, 9, 7].as_slice());
    Ok(())
}

#[test]
fn items_lent_for_writing(rt: HostRuntime) -> Result<(), Fail> {
    let alloc = rt.alloc();
    // example: TryVec::iter, TryVec::iter_mut, TryVec::as_mut_slice
    let mut v = TryVec::try_from_slice(alloc, &[1u64, 2])?;
    for item in v.iter_mut() {
        *item = 7;
    }
    v.as_mut_slice()[0] = 5;
    assert_eq!(rt; v.iter().count(), 2);
    // end
    Ok(())
}

#[test]
fn order(rt: HostRuntime) -> Result<(), Fail> {
    let alloc = rt.alloc();
    // example: TryVec::swap, TryVec::reverse, TryVec::rotate_left, TryVec::rotate_right, TryVec::fill
    let mut v = TryVec::try_from_slice(alloc, &[1u64, 2, 3])?;
    v.swap(0, 2); // 3 2 1
    v.reverse(); // 1 2 3
    v.rotate_left(1); // 2 3 1
    v.rotate_right(1); // 1 2 3
    assert!(rt; v.as_slice() == [1, 2, 3].as_slice());
    v.fill(0);
    assert_eq!(rt; v.last(), Some(&0));
    // end
    Ok(())
}

#[test]
fn sorted(rt: HostRuntime) -> Result<(), Fail> {
    let alloc = rt.alloc();
    // example: TryVec::sort, TryVec::sort_by, TryVec::sort_by_key
    let mut v = TryVec::try_from_slice(alloc, &[3u64, 1, 2])?;
    v.sort()?; // takes memory, and keeps equal items in their order
    assert!(rt; v.as_slice() == [1, 2, 3].as_slice());
    v.sort_by(|a, b| b.cmp(a))?;
    assert!(rt; v.as_slice() == [3, 2, 1].as_slice());
    v.sort_by_key(|item| *item)?;
    // end
    assert_eq!(rt; v.len(), 3);
    Ok(())
}

#[test]
fn sorted_in_place(rt: HostRuntime) -> Result<(), Fail> {
    let alloc = rt.alloc();
    // example: TryVec::sort_unstable, TryVec::sort_unstable_by, TryVec::sort_unstable_by_key
    let mut v = TryVec::try_from_slice(alloc, &[3u64, 1, 2])?;
    v.sort_unstable(); // takes no memory
    assert!(rt; v.as_slice() == [1, 2, 3].as_slice());
    v.sort_unstable_by(|a, b| b.cmp(a));
    assert!(rt; v.as_slice() == [3, 2, 1].as_slice());
    v.sort_unstable_by_key(|item| *item);
    // end
    assert_eq!(rt; v.len(), 3);
    Ok(())
}

#[test]
fn searched(rt: HostRuntime) -> Result<(), Fail> {
    let alloc = rt.alloc();
    // example: TryVec::binary_search, TryVec::binary_search_by, TryVec::binary_search_by_key, TryVec::partition_point
    let v = TryVec::try_from_slice(alloc, &[10u64, 20, 30])?;
    assert_eq!(rt; v.binary_search(&20), Ok(1));
    assert_eq!(rt; v.binary_search(&25), Err(2));
    assert_eq!(rt; v.binary_search_by(|item| item.cmp(&30)), Ok(2));
    assert_eq!(rt; v.binary_search_by_key(&1, |item| *item / 10), Ok(0));
    assert_eq!(rt; v.partition_point(|item| *item < 25), 2);
    // end
    Ok(())
}

#[test]
fn kept(rt: HostRuntime) -> Result<(), Fail> {
    let alloc = rt.alloc();
    // example: TryVec::retain, TryVec::retain_mut, TryVec::pop_if, TryVec::drain
    let mut v = TryVec::try_from_slice(alloc, &[1u64, 2, 3, 4])?;
    v.retain(|item| *item != 2); // 1 3 4
    v.retain_mut(|item| *item != 1); // 3 4
    assert_eq!(rt; v.pop_if(|item| *item == 4), Some(4));
    assert_eq!(rt; (v.drain(..).count(), v.is_empty()), (1, true));
    // end
    Ok(())
}

#[test]
fn without_repetitions(rt: HostRuntime) -> Result<(), Fail> {
    let alloc = rt.alloc();
    // example: TryVec::dedup, TryVec::dedup_by, TryVec::dedup_by_key
    let mut v = TryVec::try_from_slice(alloc, &[1u64, 1, 2, 12, 13])?;
    v.dedup(); // 1 2 12 13
    v.dedup_by_key(|item| *item / 10); // 1 12
    v.dedup_by(|a, b| *a == *b);
    assert!(rt; v.as_slice() == [1, 12].as_slice());
    // end
    Ok(())
}

#[test]
fn vectors_kept(rt: HostRuntime) -> Result<(), Fail> {
    let alloc = rt.alloc();
    // example: FallibleVec::try_push, FallibleVec::try_push_give_back, FallibleVec::try_insert, FallibleVec::try_reserve
    let mut v = Vec::new(alloc); // Rattle's own, with the trait `FallibleVec` imported
    v.try_reserve(3)?;
    v.try_push(3u64)?;
    v.try_push_give_back(5)?;
    v.try_insert(0, 1)?;
    assert!(rt; v.as_slice() == [1, 3, 5].as_slice());
    // end
    Ok(())
}

#[test]
fn vectors_joined(rt: HostRuntime) -> Result<(), Fail> {
    let alloc = rt.alloc();
    let mut other = Vec::new(alloc);
    // example: FallibleVec::try_with_capacity, FallibleVec::try_append
    other.try_push(7u64)?;
    let mut v: Vec<u64> = FallibleVec::try_with_capacity(alloc, 4)?;
    v.try_append(&mut other)?;
    assert_eq!(rt; (v.len(), other.is_empty()), (1, true));
    // end
    Ok(())
}

#[test]
fn vectors_of_copies(rt: HostRuntime) -> Result<(), Fail> {
    let alloc = rt.alloc();
    // example: FallibleVec::try_resize_with, FallibleVec::try_resize_no_copy, FallibleVec::try_extend_from_slice_no_copy
    let mut v = Vec::new(alloc);
    FallibleVec::try_resize_with(&mut v, 1, || 1u64)?; // std has one of this name
    v.try_resize_no_copy(2, 2)?; // copies by `try_clone`
    v.try_extend_from_slice_no_copy(&[3])?;
    assert!(rt; v.as_slice() == [1, 2, 3].as_slice());
    // end
    Ok(())
}

#[test]
fn vectors_of_numbers(rt: HostRuntime) -> Result<(), Fail> {
    let alloc = rt.alloc();
    // example: try_from_elem, FallibleCopyVec::try_resize, FallibleCopyVec::try_extend_from_slice
    let mut v = try_from_elem(alloc, 0u64, 2)?; // std's `vec![0; 2]`
    v.try_resize(3, 7)?; // copies by `Copy`
    v.try_extend_from_slice(&[9])?;
    assert!(rt; v.as_slice() == [0, 0, 7, 9].as_slice());
    // end
    Ok(())
}
