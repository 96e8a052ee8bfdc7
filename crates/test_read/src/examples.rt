//! Examples of reading and printing, as the pages show them.
use fc_vec::TryVec;
use fc_vec::format::try_format;
use fc_vec::read::{TryRead, try_read_up_to};
use std::io::Read;
use std::test::Fail;

#[test]
fn up_to(rt: HostRuntime) -> Result<(), Fail> {
    let alloc = rt.alloc();
    // example: try_read_up_to
    let mut source = b"0123456789".as_slice();
    let mut buf = TryVec::new(alloc);
    assert_eq!(rt; try_read_up_to(&mut source, 4, &mut buf)?, 4); // room for 4 bytes first
    assert!(rt; buf.as_slice() == b"0123".as_slice());
    // end
    Ok(())
}

#[test]
fn bounded(rt: HostRuntime) -> Result<(), Fail> {
    let alloc = rt.alloc();
    // example: TryRead::try_read_to_end
    let mut source = b"0123456789".as_slice().take(4); // the limit that room is taken for
    let mut buf = TryVec::new(alloc);
    assert_eq!(rt; source.try_read_to_end(&mut buf)?, 4);
    assert!(rt; buf.as_slice() == b"0123".as_slice());
    // end
    Ok(())
}

#[test]
fn into_a_vector(rt: HostRuntime) -> Result<(), Fail> {
    let alloc = rt.alloc();
    // example: TryRead::read_into_try_vec
    let mut source = b"0123456789".as_slice().take(4);
    let buf = source.read_into_try_vec(alloc)?;
    assert!(rt; buf.as_slice() == b"0123".as_slice());
    // end
    Ok(())
}

#[test]
fn printed(rt: HostRuntime) -> Result<(), Fail> {
    let alloc = rt.alloc();
    // example: try_format
    let text = try_format(alloc, 20, &123u64)?; // room for 20 bytes first
    assert_eq!(rt; text.as_str(), "123");
    assert!(rt; try_format(alloc, usize::MAX, &1u64).is_err());
    // end
    Ok(())
}
