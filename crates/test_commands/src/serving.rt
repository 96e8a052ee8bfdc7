//! `serve` over readers and writers in memory: pieces, failures, how often is read and flushed, and the endings.
use fc_base::TryReserveError;
use fc_command::command::{ServeEnd, ServeError, ending, serve};
use std::alloc::{AllocError, Global};
use std::io::{self, ErrorKind, Read, Write};
use std::test::Fail;

const SIX_LINES: &[u8] = b"insert a 37 1\ninsert a 037 2\nget a 37\nlen a\nremove a 37\nget b 1\n";

const SIX_REPLIES: &[u8] = b"none\nsome 1\nsome 2\n1\nsome 2\nnone\n";

/// A reader of memory in pieces of at most so many bytes, which counts how often it is read. If it is told to, it fails once after the last, and
/// would then go on with the later bytes.
#[derive(Drop)]
pub(crate) struct Pieces<'a> {
    rest: &'a [u8],
    size: usize,
    failure: Option<ErrorKind>,
    later: &'a [u8],
    reads: usize,
}

impl Read for Pieces<'_> {
    fn read(&mut self, buf: &mut [u8]) -> io::Result<usize> {
        self.reads = self.reads.saturating_add(1);
        if self.rest.is_empty() {
            if let Some(kind) = self.failure {
                self.failure = None;
                self.rest = self.later;
                return Err(io::Error::from(kind));
            }
        }
        let n = self.size.min(self.rest.len()).min(buf.len());
        let (now, later) = self.rest.split_at(n);
        buf[..n].copy_from_slice(now);
        self.rest = later;
        Ok(n)
    }
}

/// A writer that keeps at most so many bytes, in pieces, and then takes none or fails, and that counts how often it is flushed.
#[derive(Drop)]
pub(crate) struct Narrow {
    pub(crate) kept: Vec<u8>,
    piece: usize,
    left: usize,
    fails: bool,
    is_stuck: bool,
    flushes: usize,
}

impl Write for Narrow {
    fn write(&mut self, buf: &[u8]) -> io::Result<usize> {
        if self.left == 0 && self.fails {
            return Err(io::Error::from(ErrorKind::Interrupted));
        }
        let n = self.piece.min(self.left).min(buf.len());
        self.kept.extend_from_slice(&buf[..n])?;
        self.left -= n;
        Ok(n)
    }

    fn flush(&mut self) -> io::Result<()> {
        self.flushes = self.flushes.saturating_add(1);
        if self.is_stuck {
            Err(io::Error::from(ErrorKind::BrokenPipe))
        } else {
            Ok(())
        }
    }
}

/// Any bytes at once, into this room.
pub(crate) fn wide(kept: Vec<u8>) -> Narrow {
    Narrow {
        kept,
        piece: usize::MAX,
        left: usize::MAX,
        fails: false,
        is_stuck: false,
        flushes: 0,
    }
}

/// The text in pieces of at most so many bytes, and then its end.
pub(crate) fn in_pieces(text: &[u8], size: usize) -> Pieces<'_> {
    Pieces {
        rest: text,
        size,
        failure: None,
        later: b"",
        reads: 0,
    }
}

/// All tests serve by this call, so that `serve` is looked at for one kind of reader and writer alone.
pub(crate) fn served(
    alloc: Global,
    src: &mut Pieces<'_>,
    out: &mut Narrow,
) -> Result<ServeEnd, ServeError> {
    serve(alloc, src, out)
}

// `matches!` in place of `==`, which would have to be proved for `Result` first.
fn is_finished(end: &Result<ServeEnd, ServeError>) -> bool {
    matches!(end, Ok(ServeEnd::Finished))
}

fn is_read_error(end: &Result<ServeEnd, ServeError>) -> bool {
    matches!(end, Err(ServeError::Read))
}

fn is_write_error(end: &Result<ServeEnd, ServeError>) -> bool {
    matches!(end, Err(ServeError::Write))
}

fn is_out_of_memory(end: &Result<ServeEnd, ServeError>) -> bool {
    matches!(end, Err(ServeError::Memory(TryReserveError::AllocError)))
}

fn has_ending(end: Result<ServeEnd, ServeError>, status: u8, line: &str) -> bool {
    let (found, text) = ending(&end);
    found == status && text == line
}

#[test]
fn each_ending_has_a_status_and_a_line(rt: HostRuntime) {
    assert!(rt; has_ending(Ok(ServeEnd::Finished), 0, ""));
    assert!(rt; has_ending(Ok(ServeEnd::NotACommand(4)), 1, ""));
    assert!(rt; has_ending(Err(ServeError::Read), 2, "input failed"));
    assert!(rt; has_ending(Err(ServeError::Write), 2, "output failed"));
    let memory = ServeError::Memory(TryReserveError::AllocError);
    assert!(rt; has_ending(Err(memory), 2, "no memory"));
}

// Whether the six lines are answered, by a reader and a writer of pieces of at most so many bytes.
fn answers_six(alloc: Global, size: usize, piece: usize) -> bool {
    let mut src = in_pieces(SIX_LINES, size);
    let mut out = wide(Vec::new(alloc));
    out.piece = piece;
    let end = served(alloc, &mut src, &mut out);
    is_finished(&end) && out.kept.as_slice() == SIX_REPLIES
}

// All at once, and in pieces that end inside words and lines.
#[test]
fn a_reader_may_give_one_byte_a_time(rt: HostRuntime) {
    for size in [usize::MAX, 1, 2, 3, 5, 8192] {
        assert!(rt; answers_six(rt.alloc(), size, usize::MAX));
    }
}

#[test]
fn a_writer_may_take_one_byte_a_time(rt: HostRuntime) {
    assert!(rt; answers_six(rt.alloc(), usize::MAX, 1));
}

// The part so many times, one after the other.
fn repeated(alloc: Global, part: &[u8], times: usize) -> Result<Vec<u8>, AllocError> {
    let mut text = Vec::new(alloc);
    for _ in 0..times {
        text.extend_from_slice(part)?;
    }
    Ok(text)
}

// The end after such a line where the reader fails there.
fn end_after(alloc: Global, text: &[u8]) -> Result<ServeEnd, ServeError> {
    let mut src = in_pieces(text, usize::MAX);
    src.failure = Some(ErrorKind::Interrupted);
    served(alloc, &mut src, &mut wide(Vec::new(alloc)))
}

// The failure of the reader shows that the line was still open after the 4,096th byte, and after the 4,097th that it was not.
#[test]
fn a_line_is_too_long_at_its_4097th_byte(rt: HostRuntime) -> Result<(), Fail> {
    let longest = repeated(rt.alloc(), b"x", 4096)?;
    assert!(rt; is_read_error(&end_after(rt.alloc(), &longest)));
    let too_long = repeated(rt.alloc(), b"x", 4097)?;
    assert!(rt;
        matches!(
            end_after(rt.alloc(), &too_long),
            Ok(ServeEnd::NotACommand(1))
        )
    );
    Ok(())
}

#[test]
fn a_reader_interrupted_inside_the_second_line_has_failed(rt: HostRuntime) {
    let mut src = in_pieces(b"insert a 37 1\ninsert a 0", 4);
    src.failure = Some(ErrorKind::Interrupted);
    src.later = b"37 2\nget a 37\n";
    let mut out = wide(Vec::new(rt.alloc()));
    let end = served(rt.alloc(), &mut src, &mut out);
    assert!(rt; is_read_error(&end) && out.kept.as_slice() == b"none\n".as_slice());
}

// Whether a writer that takes these bytes and no more keeps them all, and the run ends as a failed write.
fn fails_later(alloc: Global, replies: &[u8], fails: bool) -> bool {
    let mut src = in_pieces(SIX_LINES, usize::MAX);
    let mut out = wide(Vec::new(alloc));
    out.left = replies.len();
    out.fails = fails;
    let end = served(alloc, &mut src, &mut out);
    is_write_error(&end) && out.kept.as_slice() == replies
}

#[test]
fn a_writer_fails_after_each_number_of_bytes(rt: HostRuntime) {
    for left in 0..SIX_REPLIES.len() {
        let replies = &SIX_REPLIES[..left];
        assert!(rt;
            fails_later(rt.alloc(), replies, true) && fails_later(rt.alloc(), replies, false)
        );
    }
}

fn fails_to_flush(alloc: Global, text: &[u8]) -> bool {
    let mut out = wide(Vec::new(alloc));
    out.is_stuck = true;
    is_write_error(&served(alloc, &mut in_pieces(text, usize::MAX), &mut out))
}

#[test]
fn a_failed_flush_is_a_failed_write(rt: HostRuntime) {
    assert!(rt; fails_to_flush(rt.alloc(), SIX_LINES) && fails_to_flush(rt.alloc(), b"bogus"));
}

// Whether a reader that gives these lines, one at a time, and then fails is read so often, and these replies are written.
fn is_read_so_often(alloc: Global, lines: &[u8], replies: &[u8], reads: usize) -> bool {
    let mut src = in_pieces(lines, 6);
    src.failure = Some(ErrorKind::Other);
    src.later = b"len a\n";
    let mut out = wide(Vec::new(alloc));
    let end = served(alloc, &mut src, &mut out);
    is_read_error(&end) && src.reads == reads && out.kept.as_slice() == replies
}

#[test]
fn a_reader_fails_after_good_reads(rt: HostRuntime) {
    assert!(rt; is_read_so_often(rt.alloc(), b"", b"", 1));
    assert!(rt; is_read_so_often(rt.alloc(), b"len a\n", b"0\n", 2));
    assert!(rt; is_read_so_often(rt.alloc(), b"len a\nlen a\n", b"0\n0\n", 3));
    assert!(rt; is_read_so_often(rt.alloc(), b"len a\nlen a\nlen a\n", b"0\n0\n0\n", 4));
}

// One line a read, and one read more, which finds the end.
#[test]
fn a_reader_that_never_fails_is_read_to_its_end(rt: HostRuntime) -> Result<(), Fail> {
    let lines = repeated(rt.alloc(), b"len a\n", 1000)?;
    let replies = repeated(rt.alloc(), b"0\n", 1000)?;
    let mut src = in_pieces(&lines, 6);
    let mut out = wide(Vec::new(rt.alloc()));
    let end = served(rt.alloc(), &mut src, &mut out);
    assert!(rt; is_finished(&end) && src.reads == 1001);
    assert!(rt; out.kept.as_slice() == replies.as_slice());
    Ok(())
}

fn is_flushed_once(alloc: Global, text: &[u8]) -> bool {
    let mut out = wide(Vec::new(alloc));
    let end = served(alloc, &mut in_pieces(text, usize::MAX), &mut out);
    matches!(end, Ok(ServeEnd::Finished | ServeEnd::NotACommand(2))) && out.flushes == 1
}

#[test]
fn the_writer_is_flushed_once(rt: HostRuntime) {
    for text in [b"len a\nlen b\n".as_slice(), b"", b"len a\nbogus\n"] {
        assert!(rt; is_flushed_once(rt.alloc(), text));
    }
}

fn has_no_byte(alloc: Global) -> bool {
    Vec::<u8>::with_capacity(alloc, 1).is_err()
}

// Where all memory is refused, the room for a line is, and nothing is read. The sweep runs it so.
#[test]
fn a_source_is_not_read_without_room_for_a_line(rt: HostRuntime) {
    let is_refused = has_no_byte(rt.alloc()) && has_no_byte(rt.alloc());
    let mut src = in_pieces(b"len a\n", 6);
    let mut out = wide(Vec::new(rt.alloc()));
    let end = served(rt.alloc(), &mut src, &mut out);
    assert!(rt; !is_refused || is_out_of_memory(&end) && src.reads == 0 && out.kept.is_empty());
}

// Serves the two lines with this room for their replies. Whether a refusal was told as it has to be, and whether there was none.
fn two_lines(alloc: Global, kept: Vec<u8>) -> (bool, bool) {
    let mut src = in_pieces(b"insert a 1 1\nlen a\n", usize::MAX);
    let mut out = wide(kept);
    let end = served(alloc, &mut src, &mut out);
    let told = out.kept.as_slice();
    let at_start = is_out_of_memory(&end) && src.reads == 0 && told.is_empty();
    let by_a_reply = is_finished(&end) && told == b"refused alloc 1 1\n0\n".as_slice();
    let is_whole = is_finished(&end) && told == b"none\n1\n".as_slice();
    (at_start || by_a_reply, is_whole)
}

// With the room for its replies there are five requests: that room, two of the start, and two of the first pair of the map. A refusal of
// one at the start is the end, before anything is read or written; a later one is the insertion's reply. Once more where there is memory,
// the lines are answered. The sweep runs it so.
#[test]
fn a_refusal_is_told_at_the_start_or_by_a_reply(rt: HostRuntime) {
    let Ok(kept) = Vec::with_capacity(rt.alloc(), 64) else {
        return
    };
    let (was_refused, was_whole) = two_lines(rt.alloc(), kept);
    assert!(rt; was_refused || was_whole);
    let Ok(kept) = Vec::with_capacity(rt.alloc(), 64) else {
        return
    };
    let (is_refused, is_whole) = two_lines(rt.alloc(), kept);
    assert!(rt; is_whole || was_whole && is_refused);
}
