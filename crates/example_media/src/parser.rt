//! A parser of boxes in boxes that trusts no length.
ghost use Rattle.std.specs.Prelude.{◌≡◌, ◌+◌, ◌≤◌, ◌⊎◌, [], length, sum, Ok, None, IfOk, IfSome};
ghost use Rattle.std.specs.Io.KnownBytes.{Consumes, IsAtEnd};
ghost use Rattle.example_media.specs.Reading.{AreRead, IsWithin, HasPayload, depth_of};

use crate::boxes::{FRONT, Header, header_in};
use fallible_collections::{TryReserveError, TryVec, try_read_up_to};
use std::alloc::Global;
use std::io::{self, Read};
use std::marker::Model;

/// The longest payload that is kept, in bytes.
pub const KEPT: u64 = 64;

/// How many boxes may be open, one in the other.
pub const DEPTH: usize = 3;

// How many bytes are passed over at once.
const PIECE: u64 = 512;

/// What became of a box.
#[derive(Clone, Copy)]
pub enum Fate {
    /// Its boxes come next.
    Opened,
    /// Its payload was read and kept.
    Kept,
    /// Its payload is longer than what is kept, and was passed over.
    NotKept,
    /// Memory for its payload was refused, and it was passed over.
    Refused,
    /// It says that it is shorter than its own front, after which the next box is looked for.
    TooShort,
    /// It says that it is longer than what is left of the box around it, which was passed over with it.
    TooLong,
    /// It holds boxes in too many others, and was passed over.
    TooDeep,
    /// The source ended in it.
    CutOff,
}

/// What stood next in the source, and how many boxes are open around it.
#[derive(Clone, Copy)]
pub enum Found {
    /// A box.
    Whole(Header, Fate, usize),
    /// So many bytes at the end of a box, too few for the front of another one, which were passed over.
    Stray(u64, usize),
    /// The source ended in the front of a box, or where one should follow.
    CutOff(usize),
}

/// A parser, seen by contracts as the number of bytes that it may still read. Each open box has so many bytes left: no box in it
/// takes more, whatever length it gives.
#[derive(Drop)]
pub struct Parser {
    scratch: TryVec<u8>,
    outer: TryVec<u64>,
    left: u64,
}

impl Model for Parser {
    ghost use Rattle.std.specs.Prelude.{ℕ, ◌+◌, ◌≤◌, length, sum};

    ghost Value = { ℕ };

    ghost view = { λ p. p.left + sum p.outer.items };

    ghost invariant = { λ p. (length p.outer.items ≤ 3) × (3 ≤ p.outer.room) };
}

impl Parser {
    /// A parser that reads at most so many bytes. It takes all the room that it will need but that of payloads.
    ///
    /// # Errors
    /// `AllocError` where that room was refused.
    pub fn new(alloc: Global, allowed: u64) -> Result<Parser, TryReserveError>
        ensures { IfOk result (λ p. p ≡ allowed) }
    {
        Ok(Parser {
            scratch: TryVec::with_capacity(alloc, PIECE as usize)?,
            outer: TryVec::with_capacity(alloc, DEPTH)?,
            left: allowed,
        })
    }

    /// What stands next in the source, or `None` where it has ended or nothing more may be read. The payload of a box that is `Kept`
    /// stands in `payload`, which is emptied first; a refusal of room for it is no error: the box is `Refused`, and the next one follows.
    ///
    /// # Errors
    /// The source's own: a read failed or was interrupted. Where the parser then stands is open.
    pub fn next<R: Read>(
        &mut self,
        src: &mut R,
        payload: &mut TryVec<u8>,
    ) -> io::Result<Option<Found>>
        ensures within { IsWithin (R.remaining src.old) (R.remaining src.new) self.old self.new }
        ensures payload { length payload.new.items ≤ KEPT }
        ensures depth { IfOk result (λ found. IfSome found (λ f. depth_of f ≤ DEPTH)) }
        ensures kept { IfOk result (λ found. IfSome found (λ f. HasPayload f payload.new.items)) }
        ensures end { result ≡ Ok None → (self.old ≡ 0) ⊎ IsAtEnd (R.remaining src.new) }
    {
        payload.clear();
        close(&mut self.left, &mut self.outer);
        if self.left == 0 {
            return Ok(None);
        }
        let depth = self.outer.len();
        if self.left < FRONT {
            let count = self.stray(src)?;
            return Ok(Some(Found::Stray(count, depth)));
        }
        self.left -= FRONT;
        self.scratch.clear();
        try_read_up_to(src, FRONT, &mut self.scratch)?;
        match header_in(self.scratch.as_slice()) {
            Some(header) => {
                let fate = self.enter(src, &header, payload)?;
                if matches!(&fate, Fate::CutOff) {
                    self.end();
                }
                Ok(Some(Found::Whole(header, fate, depth)))
            }
            None => {
                let cut = depth > 0 || !self.scratch.is_empty();
                self.end();
                Ok(if cut {
                    Some(Found::CutOff(depth))
                } else {
                    None
                })
            }
        }
    }

    // Nothing more is read.
    fn end(&mut self)
        ensures { self.new ≡ 0 }
    {
        self.outer.clear();
        self.left = 0;
    }

    // Passes over what is left of a box, which is too little for a front, and answers how much that was.
    fn stray<R: Read>(&mut self, src: &mut R) -> io::Result<u64>
        ensures { IsWithin (R.remaining src.old) (R.remaining src.new) self.old self.new }
    {
        let left = self.left;
        self.left = 0;
        pass_over(src, left, &mut self.scratch)?;
        Ok(left)
    }

    // Goes into a box whose front was read, or reads its payload, or passes it over.
    fn enter<R: Read>(
        &mut self,
        src: &mut R,
        header: &Header,
        payload: &mut TryVec<u8>,
    ) -> io::Result<Fate>
        requires { payload.old.items ≡ [] }
        ensures within { IsWithin (R.remaining src.old) (R.remaining src.new) self.old self.new }
        ensures payload { length payload.new.items ≤ KEPT }
        ensures kept { IfOk result (λ fate. fate ≡ Fate.Kept → length payload.new.items + FRONT ≡ header.now.length) }
    {
        let length = u64::from(header.length);
        if length < FRONT {
            return Ok(Fate::TooShort);
        }
        let rest = length - FRONT;
        let left = self.left;
        if left < rest {
            self.left = 0;
            return pass(src, left, Fate::TooLong, &mut self.scratch);
        }
        self.left = left - rest;
        if !header.holds_boxes() {
            return keep(src, rest, payload, &mut self.scratch);
        }
        if self.outer.len() >= DEPTH {
            return pass(src, rest, Fate::TooDeep, &mut self.scratch);
        }
        self.outer.push(self.left).unwrap();
        self.left = rest;
        Ok(Fate::Opened)
    }
}

// Closes the boxes of which nothing is left, up to one that has some, or all.
fn close(left: &mut u64, outer: &mut TryVec<u64>)
    ensures same { left.new + sum outer.new.items ≡ left.old + sum outer.old.items }
    ensures all { left.new ≡ 0 → outer.new.items ≡ [] }
    ensures depth { length outer.new.items ≤ length outer.old.items }
    ensures room { outer.new.room ≡ outer.old.room }
{
    while *left == 0 {
        match outer.pop() {
            Some(next) => *left = next,
            None => return,
        }
    }
}

// Reads a payload into an empty vector, or passes over it.
fn keep<R: Read>(
    src: &mut R,
    count: u64,
    payload: &mut TryVec<u8>,
    scratch: &mut TryVec<u8>,
) -> io::Result<Fate>
    requires { payload.old.items ≡ [] }
    ensures read { AreRead (R.remaining src.old) (R.remaining src.new) count }
    ensures payload { length payload.new.items ≤ KEPT }
    ensures kept { IfOk result (λ fate. fate ≡ Fate.Kept → (length payload.new.items ≡ count) × Consumes (R.remaining src.old) (R.remaining src.new) payload.new.items) }
{
    if count > KEPT {
        return pass(src, count, Fate::NotKept, scratch);
    }
    if payload.reserve(count as usize).is_err() {
        return pass(src, count, Fate::Refused, scratch);
    }
    let read = try_read_up_to(src, count, payload)?; // there is room: an error is the source's own
    Ok(if (read as u64) < count {
        Fate::CutOff
    } else {
        Fate::Kept
    })
}

// Passes over so many bytes of a box with this fate, unless the source ends in it.
fn pass<R: Read>(src: &mut R, count: u64, fate: Fate, scratch: &mut TryVec<u8>) -> io::Result<Fate>
    ensures read { AreRead (R.remaining src.old) (R.remaining src.new) count }
    ensures fate { IfOk result (λ r. (r ≡ fate) ⊎ (r ≡ Fate.CutOff)) }
{
    let passed = pass_over(src, count, scratch)?;
    Ok(if passed < count { Fate::CutOff } else { fate })
}

// Reads and forgets so many bytes, or all that there are, and answers how many.
fn pass_over<R: Read>(src: &mut R, count: u64, scratch: &mut TryVec<u8>) -> io::Result<u64>
    ensures { AreRead (R.remaining src.old) (R.remaining src.new) count }
{
    let mut left = count;
    while left > 0 {
        scratch.clear();
        let n = try_read_up_to(src, left.min(PIECE), scratch)?;
        if n == 0 {
            break;
        }
        left -= n as u64;
    }
    Ok(count - left)
}
