//! The error's texts, and what std's refusals become.
use fc_base::TryReserveError;
use std::test::Fail;

#[test]
fn the_text_says_what_was_refused(rt: HostRuntime) -> Result<(), Fail> {
    let overflow = TryReserveError::CapacityOverflow.to_string(rt.alloc())?;
    assert!(rt; overflow.as_str() == "the collection would pass usize::MAX items");
    let alloc = TryReserveError::AllocError.to_string(rt.alloc())?;
    assert!(rt; alloc.as_str() == "the allocator refused the memory");
    Ok(())
}

// More bytes than an allocation may have.
fn asked_for_too_much(rt: &HostRuntime) -> Result<Vec<u64>, TryReserveError> {
    Ok(Vec::with_capacity(rt.alloc(), usize::MAX / 4)?)
}

#[test]
fn a_refused_request_is_an_alloc_error(rt: HostRuntime) {
    assert!(rt; matches!(asked_for_too_much(&rt), Err(TryReserveError::AllocError)));
}
