//! Lines, and the numbers in them.
ghost use Rattle.std.specs.Prelude.{◌≡◌, ◌≢◌, ◌↔◌, ℕ, ◌^◌, ◌<◌, List, [], ◌∷◌, ◌++◌, Some, None, IfSome, IfNone, IfErr, IsTrue, IsNone, IsUtf8};
ghost use Rattle.std.specs.IoError.{error_kind};
ghost use Rattle.std.specs.Option.{SomeIff};
ghost use Rattle.std.specs.Str.Parse.{IsNumeral, digits_value};
ghost use Rattle.bounded_lines.specs.Reading.{held, IsRead};

use crate::source::Pieces;
use std::io::{self, ErrorKind, Read};
use std::marker::Model;
use std::str;

/// A line without its line feed, in room for N bytes. Contracts see its bytes, or `None` where it has more than N.
#[derive(Drop)]
pub struct Line<const N: usize> {
    bytes: [u8; N],
    len: usize,
    is_too_long: bool,
}

impl<const N: usize> Model for Line<N> {
    ghost use Rattle.std.specs.Prelude.{ℕ, ◌≤◌, List, Option, None, Some, take, if◌then◌else◌};

    ghost Value = { Option (List ℕ) };

    ghost view = { λ l. if l.is_too_long then None else Some (take l.len l.bytes) };

    ghost invariant = { λ l. l.len ≤ N };
}

impl<const N: usize> Line<N> {
    /// Nothing is read yet.
    pub fn new() -> Line<N>
        ensures { result ≡ Some [] }
    {
        Line {
            bytes: [0; N],
            len: 0,
            is_too_long: false,
        }
    }

    /// Reads the next line in the place of the last one. The last line of a source may lack its line feed. False where the source has
    /// ended, and the line is then empty.
    ///
    /// # Errors
    /// That of a read that failed; an interrupted read is tried again. What was read of the line is kept in it, and taken off the source.
    pub fn read<R: Read>(&mut self, source: &mut Pieces<R>) -> io::Result<bool>
        ensures read { IsRead N source.old source.new self.new result }
        ensures retried { IfErr result (λ e. error_kind e ≢ ErrorKind.Interrupted) }
    {
        self.clear();
        for _ in 0..u64::MAX {
            match source.next_byte()? {
                Some(b'\n') => return Ok(true),
                Some(byte) => self.push(byte),
                None => return Ok(!self.is_empty()),
            }
        }
        Err(io::Error::from(ErrorKind::InvalidData))
    }

    fn clear(&mut self)
        ensures { self.new ≡ Some [] }
    {
        self.len = 0;
        self.is_too_long = false;
    }

    fn is_empty(&self) -> bool
        ensures { IsTrue result ↔ (self.now ≡ Some []) }
    {
        self.len == 0 && !self.is_too_long
    }

    // Puts a byte at the end. One for which there is no room is passed over.
    fn push(&mut self, byte: u8)
        ensures { (line : List ℕ) → self.old ≡ held N line → self.new ≡ held N (line ++ byte ∷ []) }
    {
        if self.len < N {
            self.bytes[self.len] = byte;
            self.len += 1;
        } else {
            self.is_too_long = true;
        }
    }

    /// Whether the line has more bytes than there is room for.
    pub fn is_too_long(&self) -> bool
        ensures { IsTrue result ↔ IsNone self.now }
    {
        self.is_too_long
    }

    /// The line's text, or `None` where it is too long or no text.
    pub fn text(&self) -> Option<&str>
        ensures text { IfSome result (λ text. self.now ≡ Some text.now) }
        ensures none { IfNone result (IfSome self.now (λ bytes. ¬ (IsUtf8 bytes))) }
    {
        if self.is_too_long {
            return None;
        }
        str::from_utf8(self.bytes.get(..self.len)?).ok()
    }
}

/// The number that a word spells by decimal digits alone; `None` where it spells none below 2^64.
pub fn number(word: &str) -> Option<u64>
    ensures { SomeIff result (IsNumeral 10 word.now × (digits_value 10 word.now < 2 ^ 64)) (digits_value 10 word.now) }
{
    if word.as_bytes().first()?.is_ascii_digit() {
        word.parse().ok()
    } else {
        None
    }
}
