//! Examples of boxes, copies and queries, as the pages show them.
use fc_base::{Count, FallibleBox, FallibleRc, Query, TryBox, TryClone, compare};
use std::rc::Rc;
use std::test::Fail;

#[test]
fn boxes(rt: HostRuntime) -> Result<(), Fail> {
    let alloc = rt.alloc();
    // example: TryBox::try_new, FallibleBox::try_new
    let five = TryBox::try_new(alloc, 5u64)?;
    let copy = five.try_clone()?;
    assert_eq!(rt; (*five, *copy), (5, 5));
    let own: Box<u64> = FallibleBox::try_new(alloc, 7)?; // Rattle's own `Box`
    assert_eq!(rt; *own, 7);
    // end
    Ok(())
}

#[test]
fn shared(rt: HostRuntime) -> Result<(), Fail> {
    let alloc = rt.alloc();
    // example: FallibleRc::try_new
    let first = Rc::try_new(alloc, 5u64)?; // with the trait `FallibleRc` imported
    let second = first.clone()?;
    assert_eq!(rt; (*second, Rc::strong_count(&first)), (5, 2));
    // end
    Ok(())
}

#[test]
fn copies(rt: HostRuntime) -> Result<(), Fail> {
    let alloc = rt.alloc();
    // example: TryClone::try_clone_all
    let mut copies = Vec::with_capacity(alloc, 2)?; // room for all copies
    u64::try_clone_all(&[6, 7], &mut copies)?;
    assert!(rt; copies.as_slice() == [6, 7].as_slice());
    // end
    Ok(())
}

#[test]
fn queries(rt: HostRuntime) -> Result<(), Fail> {
    let alloc = rt.alloc();
    // example: Query::order_of, compare
    let key = String::from_str(alloc, "b")?;
    assert!(rt; "a".order_of(&key).is_gt()); // how the key stands to the query
    let mut count = Count::new();
    assert!(rt; compare(&key, "b", &mut count).is_eq());
    // end
    Ok(())
}
