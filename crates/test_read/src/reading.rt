//! Reading up to a limit, from sources that give little at a time, end early or fail.
use crate::pieces::read_in_steps;
use fc_base::TryReserveError;
use fc_vec::read::{TryRead, try_read_up_to};
use fc_vec::{TryVec, try_from_elem};
use std::alloc::Global;
use std::io::{self, ErrorKind, Read, Take};
use std::test::Fail;

// Bytes in memory, given in pieces of at most so many. Before the byte at `fails_at` one read fails, and the next would go on.
#[derive(Drop)]
struct Pieces<'a> {
    rest: &'a [u8],
    size: usize,
    fails_at: usize,
    kind: ErrorKind,
}

impl Read for Pieces<'_> {
    fn read(&mut self, buf: &mut [u8]) -> io::Result<usize> {
        if self.fails_at == 0 {
            self.fails_at = usize::MAX;
            return Err(io::Error::from(self.kind));
        }
        let n = self
            .size
            .min(self.fails_at)
            .min(self.rest.len())
            .min(buf.len());
        let (now, later) = self.rest.split_at(n);
        buf[..n].copy_from_slice(now);
        self.rest = later;
        self.fails_at -= n;
        Ok(n)
    }
}

// The text in pieces of at most so many bytes, with no failure in the first 2^64 bytes.
fn in_pieces(text: &[u8], size: usize) -> Pieces<'_> {
    failing(text, size, usize::MAX, ErrorKind::Other)
}

fn failing(text: &[u8], size: usize, fails_at: usize, kind: ErrorKind) -> Pieces<'_> {
    Pieces {
        rest: text,
        size,
        fails_at,
        kind,
    }
}

// All tests read by this call, so that the reading is proved for one kind of source.
fn read(src: &mut Pieces<'_>, limit: u64, buf: &mut TryVec<u8>) -> io::Result<usize> {
    try_read_up_to(src, limit, buf)
}

fn is_count(answer: &io::Result<usize>, wanted: usize) -> bool {
    matches!(answer, Ok(n) if *n == wanted)
}

fn failed_as(answer: &io::Result<usize>, kind: ErrorKind) -> bool {
    match answer {
        Ok(_) => false,
        Err(error) => error.kind() == kind,
    }
}

fn holds(buf: &TryVec<u8>, wanted: &[u8]) -> bool {
    buf.as_slice() == wanted
}

// What a source gives up to the limit, in pieces of every size, and what is left of it.
fn gives(alloc: Global, text: &[u8], limit: u64, wanted: &[u8], left: &[u8]) -> bool {
    for size in 1..12 {
        let mut src = in_pieces(text, size);
        let mut buf = TryVec::new(alloc);
        let answer = read(&mut src, limit, &mut buf);
        if !is_count(&answer, wanted.len()) || !holds(&buf, wanted) || src.rest != left {
            return false;
        }
    }
    true
}

#[test]
fn the_front_is_read_and_no_more(rt: HostRuntime) {
    assert!(rt; gives(rt.alloc(), b"1234567890", 5, b"12345", b"67890"));
    assert!(rt; gives(rt.alloc(), b"1234567890", 10, b"1234567890", b""));
    assert!(rt; gives(rt.alloc(), b"abc", 5, b"abc", b""));
    assert!(rt; gives(rt.alloc(), b"abc", 0, b"", b"abc"));
    assert!(rt; gives(rt.alloc(), b"", 5, b"", b""));
}

#[test]
fn what_was_there_stays_first(rt: HostRuntime) -> Result<(), Fail> {
    let mut src = in_pieces(b"1234567890", 3);
    let mut buf = TryVec::try_from_str(rt.alloc(), "ab")?;
    let first = read(&mut src, 4, &mut buf);
    let second = read(&mut src, 9, &mut buf);
    assert!(rt; is_count(&first, 4) && is_count(&second, 6));
    assert!(rt; holds(&buf, b"ab1234567890"));
    Ok(())
}

// A source that fails once it has given k bytes: the read ends there, and the bytes before stay.
#[test]
fn a_failed_read_ends_it(rt: HostRuntime) {
    for kind in [ErrorKind::Interrupted, ErrorKind::BrokenPipe] {
        for k in 0..5 {
            let mut src = failing(b"12345", 2, k, kind);
            let mut buf = TryVec::new(rt.alloc());
            let answer = read(&mut src, 5, &mut buf);
            assert!(rt; failed_as(&answer, kind) && holds(&buf, &b"12345"[..k]));
        }
        let mut src = failing(b"12345", 2, 5, kind);
        let mut buf = TryVec::new(rt.alloc());
        let answer = read(&mut src, 5, &mut buf);
        assert!(rt; is_count(&answer, 5) && holds(&buf, b"12345"));
    }
}

#[test]
fn a_limit_without_room_reads_nothing(rt: HostRuntime) -> Result<(), Fail> {
    let mut src = in_pieces(b"1234567890", 3);
    let mut buf = TryVec::try_from_str(rt.alloc(), "ab")?;
    for limit in [u64::MAX, u64::MAX - 2, 1 << 63] {
        let answer = read(&mut src, limit, &mut buf);
        assert!(rt; failed_as(&answer, ErrorKind::OutOfMemory));
        assert!(rt; holds(&buf, b"ab") && src.rest == b"1234567890".as_slice());
    }
    Ok(())
}

// The sweep refuses the requests in turn.
#[test]
fn a_refused_read_leaves_source_and_buffer(rt: HostRuntime) {
    let mut src = in_pieces(b"1234567890", 3);
    let mut buf = TryVec::new(rt.alloc());
    let answer = read(&mut src, 5, &mut buf);
    if answer.is_ok() {
        assert!(rt; holds(&buf, b"12345") && src.rest == b"67890".as_slice());
    } else {
        assert!(rt; failed_as(&answer, ErrorKind::OutOfMemory));
        assert!(rt; buf.is_empty() && src.rest == b"1234567890".as_slice());
    }
}

// What the source gives up to the limit, in a new vector.
fn read_into(src: &mut Take<Pieces<'_>>, alloc: Global) -> io::Result<TryVec<u8>> {
    src.read_into_try_vec(alloc)
}

fn is_text(answer: &io::Result<TryVec<u8>>, wanted: &[u8]) -> bool {
    match answer {
        Ok(buf) => holds(buf, wanted),
        Err(_) => false,
    }
}

fn vector_failed_as(answer: &io::Result<TryVec<u8>>, kind: ErrorKind) -> bool {
    match answer {
        Ok(_) => false,
        Err(error) => error.kind() == kind,
    }
}

const KINDS: [ErrorKind; 5] = [
    ErrorKind::Interrupted,
    ErrorKind::BrokenPipe,
    ErrorKind::OutOfMemory,
    ErrorKind::UnexpectedEof,
    ErrorKind::Other,
];

// The error of a source is passed on as it is by either call, and the limit falls by the bytes that were read before. Each buffer gives its block back.
#[test]
fn an_error_is_passed_on(rt: HostRuntime) {
    for kind in KINDS {
        let mut src = failing(b"12345", 2, 3, kind).take(5);
        assert!(rt; vector_failed_as(&read_into(&mut src, rt.alloc()), kind) && src.limit() == 2);
        let mut src = failing(b"12345", 2, 3, kind).take(5);
        let mut buf = TryVec::new(rt.alloc());
        assert!(rt; failed_as(&src.try_read_to_end(&mut buf), kind) && holds(&buf, b"123"));
    }
}

// The sweep refuses the room for five bytes, of which a block has eight at least: the source and the limit stay as they are. With room, the source fails after
// three, and the buffer is dropped with these.
#[test]
fn a_failed_or_refused_vector_is_dropped(rt: HostRuntime) -> Result<(), Fail> {
    let mut src = failing(b"12345", 2, 3, ErrorKind::BrokenPipe).take(5);
    let answer = read_into(&mut src, rt.alloc());
    if vector_failed_as(&answer, ErrorKind::OutOfMemory) {
        println!(rt; "refused")?;
        assert!(rt; src.limit() == 5 && src.get_ref().rest == b"12345".as_slice());
    } else {
        assert!(rt; vector_failed_as(&answer, ErrorKind::BrokenPipe) && src.limit() == 2);
    }
    Ok(())
}

#[test]
fn a_limit_falls_by_the_bytes_read(rt: HostRuntime) -> Result<(), Fail> {
    let mut src = in_pieces(b"1234567890", 3).take(5);
    let mut buf = TryVec::new(rt.alloc());
    assert!(rt; src.try_read_to_end(&mut buf)? == 5 && src.limit() == 0);
    assert!(rt; src.try_read_to_end(&mut buf)? == 0 && holds(&buf, b"12345"));
    src.set_limit(9);
    let rest = src.read_into_try_vec(rt.alloc())?;
    assert!(rt; holds(&rest, b"67890") && src.limit() == 4);
    let mut broken = failing(b"12345", 2, 3, ErrorKind::BrokenPipe).take(5);
    let answer = broken.try_read_to_end(&mut buf);
    assert!(rt; failed_as(&answer, ErrorKind::BrokenPipe));
    assert!(rt; holds(&buf, b"12345123") && broken.limit() == 2);
    Ok(())
}

const MANY: usize = 1000000;

fn million(alloc: Global) -> Result<TryVec<u8>, TryReserveError> {
    Ok(TryVec::from(try_from_elem(alloc, b'1', MANY)?))
}

// The million, and its bytes by each call: a block of just so many for each. In steps of 65,536 the room is for 1, 2, 4, 8 and 16 of them.
#[test]
fn a_million_bytes(rt: HostRuntime) -> Result<(), Fail> {
    let text = million(rt.alloc())?;
    let mut first = TryVec::new(rt.alloc());
    let mut src = in_pieces(text.as_slice(), usize::MAX);
    assert!(rt; is_count(&read(&mut src, MANY as u64, &mut first), MANY) && first == text);
    let mut second = TryVec::new(rt.alloc());
    let mut src = in_pieces(text.as_slice(), 5000).take(MANY as u64);
    assert!(rt; is_count(&src.try_read_to_end(&mut second), MANY) && second == text);
    let mut src = in_pieces(text.as_slice(), 5000).take(MANY as u64);
    assert!(rt; is_text(&read_into(&mut src, rt.alloc()), text.as_slice()));
    let mut third = TryVec::new(rt.alloc());
    let mut src = in_pieces(text.as_slice(), usize::MAX);
    read_in_steps(&mut src, u64::MAX, &mut third)?;
    assert!(rt; third == text);
    Ok(())
}

// Longer than what is asked for at a time.
#[test]
fn long_sources_in_steps(rt: HostRuntime) -> Result<(), Fail> {
    let mut text = Vec::new(rt.alloc());
    for i in 0..140000u32 {
        text.push((i % 251) as u8)?;
    }
    let mut src = in_pieces(&text, 5000);
    let mut buf = TryVec::new(rt.alloc());
    assert!(rt; is_count(&read(&mut src, 100000, &mut buf), 100000));
    assert!(rt; buf.len() == 100000 && text.as_slice().starts_with(buf.as_slice()));
    let mut src = in_pieces(&text, 5000);
    let mut buf = TryVec::new(rt.alloc());
    read_in_steps(&mut src, 1 << 40, &mut buf)?;
    assert!(rt; holds(&buf, &text));
    Ok(())
}
