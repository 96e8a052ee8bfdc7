//! A source that is read by pieces.
ghost use Rattle.std.specs.Prelude.{◌≡◌, ◌≢◌, ℕ, List, [], ◌∷◌, length, IfOk, IfErr, OnErr, MatchOption};
ghost use Rattle.std.specs.IoError.{error_kind};
ghost use Rattle.std.specs.Io.{ReadsAtMost};
ghost use Rattle.std.specs.Io.KnownBytes.{Consumes, IsAtEnd, Keeps, ReadConsumes};

use std::io::{self, ErrorKind, Read};
use std::marker::Model;

// How many bytes one read asks for.
const PIECE: usize = 4096;

/// A reader with the bytes that were read from it and not taken yet. Contracts see the bytes that it still gives, where the reader
/// tells them.
#[derive(Drop)]
pub struct Pieces<R: Read> {
    reader: R,
    piece: [u8; PIECE],
    start: usize,
    end: usize,
}

impl<R: Read> Model for Pieces<R> {
    ghost use Rattle.std.specs.Prelude.{ℕ, ◌≤◌, List, Option, length, slice_range};
    ghost use Rattle.std.specs.Io.KnownBytes.{prepend_known};

    ghost Value = { Option (List ℕ) };

    ghost view = { λ p. prepend_known (slice_range p.piece p.start p.end) (R.remaining p.reader) };

    ghost invariant = { λ p. (p.start ≤ p.end) × (p.end ≤ length p.piece) };
}

impl<R: Read> Pieces<R> {
    /// Nothing is read yet.
    pub fn new(reader: R) -> Pieces<R>
        ensures { result ≡ R.remaining reader }
    {
        Pieces {
            reader,
            piece: [0; PIECE],
            start: 0,
            end: 0,
        }
    }

    /// Takes the next byte; `None` where the source has ended. It reads only where all that was read is taken.
    ///
    /// # Errors
    /// That of a read that failed. No byte is lost, and the next call reads again.
    pub fn next_byte(&mut self) -> io::Result<Option<u8>>
        ensures taken { IfOk result (λ next. MatchOption next (IsAtEnd self.new × Keeps self.old self.new) (λ byte. Consumes self.old self.new (byte ∷ []))) }
        ensures kept { OnErr result (Keeps self.old self.new) }
        ensures retried { IfErr result (λ e. error_kind e ≢ ErrorKind.Interrupted) }
    {
        if self.start == self.end {
            let count = fill(&mut self.reader, &mut self.piece)?;
            if count == 0 {
                return Ok(None);
            }
            self.start = 0;
            self.end = count;
        }
        let byte = self.piece[self.start];
        self.start += 1;
        Ok(Some(byte))
    }
}

// Reads a piece, and answers how long it is. An interrupted read is tried again.
fn fill<R: Read>(reader: &mut R, piece: &mut [u8]) -> io::Result<usize>
    ensures bound { ReadsAtMost result piece.new }
    ensures bytes { ReadConsumes (R.remaining reader.old) (R.remaining reader.new) result piece.new }
    ensures retried { IfErr result (λ e. error_kind e ≢ ErrorKind.Interrupted) }
{
    for _ in 0..u64::MAX {
        match reader.read(piece) {
            Ok(count) => return Ok(count),
            Err(e) if e.kind() == ErrorKind::Interrupted => {}
            Err(e) => return Err(e),
        }
    }
    Err(io::Error::from(ErrorKind::TimedOut))
}
