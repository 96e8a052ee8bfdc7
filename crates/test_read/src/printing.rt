//! Printing into a text whose room is taken first.
use fc_base::TryReserveError;
use fc_vec::format::try_format;
use std::fmt;
use std::test::Fail;

// Its printing fails once it has written three bytes.
#[derive(Drop)]
struct Broken;

impl fmt::Display for Broken {
    fn fmt<W: fmt::Write>(&self, f: &mut fmt::Formatter<W>) -> fmt::Result {
        f.write_str("abc")?;
        Err(fmt::Error)
    }
}

fn is_text(answer: &Result<String, TryReserveError>, wanted: &str) -> bool {
    match answer {
        Ok(text) => text.as_str() == wanted,
        Err(_) => false,
    }
}

fn has_room(answer: &Result<String, TryReserveError>, room: usize) -> bool {
    match answer {
        Ok(text) => text.capacity() >= room,
        Err(_) => false,
    }
}

fn is_refused(answer: &Result<String, TryReserveError>) -> bool {
    matches!(answer, Err(TryReserveError::AllocError))
}

#[test]
fn a_text_longer_than_its_room(rt: HostRuntime) -> Result<(), Fail> {
    for room in [3, 0, 1, 100] {
        let answer = try_format(rt.alloc(), room, &123u64);
        assert!(rt; is_text(&answer, "123") && has_room(&answer, room));
    }
    Ok(())
}

#[test]
fn a_failed_printing_is_refused(rt: HostRuntime) {
    assert!(rt; is_refused(&try_format(rt.alloc(), 3, &Broken)));
    assert!(rt; is_refused(&try_format(rt.alloc(), 100, &Broken)));
    assert!(rt; is_refused(&try_format(rt.alloc(), usize::MAX, &123u64)));
}

const HUNDRED: &str =
    "0123456789012345678901234567890123456789012345678901234567890123456789012345678901234567890123456789";

// Its text has a million bytes, a hundred at a time.
#[derive(Drop)]
struct Million;

impl fmt::Display for Million {
    fn fmt<W: fmt::Write>(&self, f: &mut fmt::Formatter<W>) -> fmt::Result {
        for _ in 0..10000 {
            f.write_str(HUNDRED)?;
        }
        Ok(())
    }
}

fn is_million(answer: &Result<String, TryReserveError>) -> bool {
    match answer {
        Ok(text) => text.len() == 1000000 && text.as_str().ends_with(HUNDRED),
        Err(_) => false,
    }
}

// Room for all of it takes one request for just so many bytes. Without, the room is for 100 bytes, and then for twice as much, 14 times, up to 1,638,400.
#[test]
fn a_million_bytes_are_printed(rt: HostRuntime) {
    assert!(rt; is_million(&try_format(rt.alloc(), 1000000, &Million)));
    assert!(rt; is_million(&try_format(rt.alloc(), 0, &Million)));
}

// The sweep refuses the requests in turn.
#[test]
fn a_text_is_whole_or_refused(rt: HostRuntime) {
    for room in [0, 3, 100] {
        let answer = try_format(rt.alloc(), room, &1234567890u64);
        assert!(rt; is_text(&answer, "1234567890") || is_refused(&answer));
    }
}
