//! Lines of sources that give little at a time, end early, fail or are interrupted.
use bounded_lines::{Line, Pieces};
use std::cell::Cell;
use std::io::{self, ErrorKind, Read};

// The longest line.
const ROOM: usize = 4;

// Bytes in memory, given in pieces of at most so many. Before the byte at `fails_at` one read fails, and the next would go on.
#[derive(Drop)]
struct Fake<'a> {
    rest: &'a [u8],
    size: usize,
    fails_at: usize,
    kind: ErrorKind,
    reads: &'a Cell<usize>,
}

impl Read for Fake<'_> {
    fn read(&mut self, buf: &mut [u8]) -> io::Result<usize> {
        self.reads.set(self.reads.get().saturating_add(1));
        if self.fails_at == 0 {
            self.fails_at = usize::MAX;
            return Err(io::Error::from(self.kind));
        }
        let n = self
            .size
            .min(self.fails_at)
            .min(self.rest.len())
            .min(buf.len());
        let (now, later) = self.rest.split_at(n);
        buf[..n].copy_from_slice(now);
        self.rest = later;
        self.fails_at -= n;
        Ok(n)
    }
}

fn source<'a>(
    text: &'a [u8],
    size: usize,
    fails_at: usize,
    kind: ErrorKind,
    reads: &'a Cell<usize>,
) -> Pieces<Fake<'a>> {
    Pieces::new(Fake {
        rest: text,
        size,
        fails_at,
        kind,
        reads,
    })
}

// What a read of a line comes to.
#[derive(Clone, Copy, PartialEq, Eq, Debug)]
enum Found<'a> {
    Text(&'a str),
    TooLong,
    NoText,
    End,
    // The kind of the failure, and what was read of the line.
    Failed(ErrorKind, &'a str),
}

fn next<'a>(line: &'a mut Line<ROOM>, source: &mut Pieces<Fake<'_>>) -> Found<'a> {
    let answer = line.read(source);
    match answer {
        Ok(true) => match line.text() {
            Some(text) => Found::Text(text),
            None if line.is_too_long() => Found::TooLong,
            None => Found::NoText,
        },
        Ok(false) => Found::End,
        Err(e) => Found::Failed(e.kind(), line.text().unwrap_or("?")),
    }
}

// Whether the source gives just these, one after the other.
fn gives(mut source: Pieces<Fake<'_>>, wanted: &[Found<'_>]) -> bool {
    let mut line = Line::new();
    for found in wanted {
        if next(&mut line, &mut source) != *found {
            return false;
        }
    }
    true
}

// Whether a text gives just these in pieces of every size, also where the read before each of its bytes is interrupted.
fn has_lines(text: &[u8], wanted: &[Found<'_>]) -> bool {
    let reads = Cell::new(0);
    for size in 1..8 {
        for stop in 0..10 {
            if !gives(
                source(text, size, stop, ErrorKind::Interrupted, &reads),
                wanted,
            ) {
                return false;
            }
        }
    }
    true
}

#[test]
fn lines_of_each_length(rt: HostRuntime) {
    let (ab, abcd, none) = (Found::Text("ab"), Found::Text("abcd"), Found::Text(""));
    assert!(rt; has_lines(b"", &[Found::End, Found::End]));
    assert!(rt; has_lines(b"\n", &[none, Found::End]));
    assert!(rt; has_lines(b"ab", &[ab, Found::End, Found::End]));
    assert!(rt; has_lines(b"ab\n", &[ab, Found::End]));
    assert!(rt; has_lines(b"ab\n\nab", &[ab, none, ab, Found::End]));
    assert!(rt; has_lines(b"abcd\nab\n", &[abcd, ab, Found::End]));
    assert!(rt; has_lines(b"abcde\nab\n", &[Found::TooLong, ab, Found::End]));
    assert!(rt; has_lines(b"abcd", &[abcd, Found::End]));
    assert!(rt; has_lines(b"abcde", &[Found::TooLong, Found::End]));
    assert!(rt;
        has_lines(
            b"\xff\nab\r\n",
            &[Found::NoText, Found::Text("ab\r"), Found::End]
        )
    );
}

// A source that fails once it has given k bytes: the lines before are told, then the failure, and then what follows.
#[test]
fn a_failed_read_is_no_end(rt: HostRuntime) {
    let (ab, cd) = (Found::Text("ab"), Found::Text("cd"));
    let failed = |kept| Found::Failed(ErrorKind::BrokenPipe, kept);
    let reads = Cell::new(0);
    let told: [[Found<'_>; 4]; 6] = [
        [failed(""), ab, cd, Found::End],
        [failed("a"), Found::Text("b"), cd, Found::End],
        [failed("ab"), Found::Text(""), cd, Found::End],
        [ab, failed(""), cd, Found::End],
        [ab, failed("c"), Found::Text("d"), Found::End],
        [ab, failed("cd"), Found::End, Found::End],
    ];
    for (k, wanted) in told.iter().enumerate() {
        for size in [1, 2, 8] {
            let broken = source(b"ab\ncd", size, k, ErrorKind::BrokenPipe, &reads);
            assert!(rt; gives(broken, wanted), "after {k} bytes");
        }
    }
}

// Bytes are taken out of the piece that was read: nine thousand are three reads, and the end is one.
#[test]
fn a_source_is_read_by_pieces(rt: HostRuntime) {
    let text = [b'\n'; 9_000];
    let reads = Cell::new(0);
    let mut lines = source(&text, usize::MAX, usize::MAX, ErrorKind::Other, &reads);
    let mut line = Line::new();
    for _ in 0..9_000 {
        assert!(rt; next(&mut line, &mut lines) == Found::Text(""));
    }
    assert!(rt; next(&mut line, &mut lines) == Found::End);
    assert!(rt; reads.get() == 4);
}
