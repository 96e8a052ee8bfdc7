//! A vector of bytes as a writer.
use fc_vec::TryVec;
use std::io::{ErrorKind, Write};
use std::test::Fail;

#[test]
fn a_vector_takes_all_bytes(rt: HostRuntime) -> Result<(), Fail> {
    let mut out = TryVec::new(rt.alloc());
    assert!(rt; out.write(b"foo")? == 3);
    assert!(rt; out.write(b"")? == 0);
    out.flush()?;
    assert!(rt; out.as_slice() == b"foo".as_slice());
    assert!(rt; out.write(b"bar")? == 3);
    assert!(rt; out.as_slice() == b"foobar".as_slice());
    Ok(())
}

// The sweep refuses the requests in turn.
#[test]
fn a_refused_write_changes_nothing(rt: HostRuntime) {
    let mut out = TryVec::new(rt.alloc());
    for _ in 0..20 {
        let before = out.len();
        match out.write(b"0123456789") {
            Ok(n) => assert!(rt; n == 10 && out.len() == before + 10),
            Err(error) => {
                assert!(rt; error.kind() == ErrorKind::OutOfMemory && out.len() == before)
            }
        }
    }
}

// A million bytes in two writes: room for the first half, and for twice as much.
#[test]
fn a_million_bytes_are_written(rt: HostRuntime) -> Result<(), Fail> {
    let half = Vec::from_elem(rt.alloc(), b'1', 500000)?;
    let mut out = TryVec::new(rt.alloc());
    assert!(rt; out.write(&half)? == 500000);
    assert!(rt; out.write(&half)? == 500000);
    assert!(rt; out.len() == 1000000 && out.as_slice().ends_with(&half));
    Ok(())
}
