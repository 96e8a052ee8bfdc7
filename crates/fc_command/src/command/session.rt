//! Lines from a reader, and replies to a writer.
ghost use Rattle.std.specs.Prelude.{◌≡◌, ◌+◌, ◌-◌, ◌^◌, ◌≤◌, List, [], ◌∷◌, ◌++◌, min, length, take, drop, ◌≢◌, ℕ, MatchResult, Ok, None, vec_capacity};
ghost use Rattle.std.specs.Io.KnownBytes.{Appends, Keeps};
ghost use Rattle.std.specs.List.{AllByRecursion};
ghost use Rattle.fc_command.specs.declared.command.session.ServeError.TheVariants as ServeError;
ghost use Rattle.fc_command.specs.Spoken.{Served, ServedIn, SpokenTo, ending_of};
ghost use Rattle.fc_command.specs.Session.{Written, LineRun, IsAfter, HasRoom, PieceRun, FaultTold, Ended};

use crate::command::world::World;
use fc_base::{Handle, TryReserveError};
use fc_lines::lines::{MAX_LINE, command_in};
use fc_lines::replies::{MAX_REPLY, write_fault, write_reply};
use std::alloc::Global;
use std::io::{Read, Write};

/// How `serve` ends where nothing failed.
#[derive(Clone, Copy, PartialEq, Eq, Debug)]
pub enum ServeEnd {
    /// The source ended, and each of its lines was run.
    Finished,
    /// The line of this number, counted from 1, is not a command.
    NotACommand(u64),
}

/// Why `serve` gave up.
#[derive(Clone, Copy, PartialEq, Eq, Debug)]
pub enum ServeError {
    /// Memory was refused: at the start, or for a list that a line names or asks for.
    Memory(TryReserveError),
    /// The source failed.
    Read,
    /// The writer failed.
    Write,
}

// How many bytes one read asks for.
pub const PIECE: usize = 8192;

// What is kept between two reads: the world, the line so far, how many lines were whole, and the text of the last reply. The lists
// of commands are taken from `alloc`.
#[derive(Drop)]
struct Session<A: Handle> {
    alloc: Global,
    world: World<u64, u64, A>,
    line: Vec<u8>,
    number: u64,
    text: Vec<u8>,
}

/// Runs the lines of the source on a new world, and writes the text of each reply.
///
/// `Ok(Finished)`: the source was read to its end, and all replies are written and flushed. `Ok(NotACommand(n))`: the replies of
/// the lines before line n are written, then the line `line n: not a command`, and all is flushed; how much of the source was
/// read after line n is open.
///
/// # Errors
/// The replies of complete lines before the error are written. `Memory`: room for a line and a reply was refused, which is taken at
/// the start, and nothing was read or written; or room for the list that an `extend`, a `walk` or a `write` names, or for the text of
/// a reply that is a list, was. At any other line a refusal is its reply, and `serve` goes on. `Read`: a read failed, was interrupted,
/// or the source hadn't ended after `u64::MAX` reads; a line that has not ended is not run. `Write`: a write failed, was interrupted
/// or took no byte, or the flush failed.
pub fn serve<R: Read, W: Write>(
    alloc: Global,
    src: &mut R,
    out: &mut W,
) -> Result<ServeEnd, ServeError>
    ensures { (text : List ℕ) × Appends (W.contents out.old) (W.contents out.new) text
        × Served (R.remaining src.old) (R.remaining src.new) text result }
{
    serve_within(alloc, alloc, src, out)
}

/// `serve`, on a world whose maps and sets take their memory of `memory`. Lines and replies take theirs of `alloc`.
///
/// # Errors
/// As `serve`.
pub fn serve_within<R: Read, W: Write, A: Handle>(
    alloc: Global,
    memory: A,
    src: &mut R,
    out: &mut W,
) -> Result<ServeEnd, ServeError>
    ensures { (text : List ℕ) × Appends (W.contents out.old) (W.contents out.new) text
        × ServedIn A (R.remaining src.old) (R.remaining src.new) text result }
{
    let world = World::within(alloc, memory);
    let line = match Vec::with_capacity(alloc, MAX_LINE) {
        Ok(line) => line,
        Err(_) => return Err(ServeError::Memory(TryReserveError::AllocError)),
    };
    let text = match Vec::with_capacity(alloc, MAX_REPLY) {
        Ok(text) => text,
        Err(_) => return Err(ServeError::Memory(TryReserveError::AllocError)),
    };
    let mut session = Session {
        alloc,
        world,
        line,
        number: 0,
        text,
    };
    session.run_all(src, out)
}

impl<A: Handle> Session<A> {
    // Runs the lines of the whole source, of which none was read yet.
    fn run_all<R: Read, W: Write>(
        &mut self,
        src: &mut R,
        out: &mut W,
    ) -> Result<ServeEnd, ServeError>
        requires room { HasRoom self.old }
        requires new { IsAfter self.old [] [] }
        ensures { (text : List ℕ) × Appends (W.contents out.old) (W.contents out.new) text
            × ServedIn A (R.remaining src.old) (R.remaining src.new) text result }
    {
        let mut piece = [0u8; PIECE];
        for _ in 0..u64::MAX {
            let n = match src.read(&mut piece) {
                Ok(n) => n,
                Err(_) => return Err(ServeError::Read),
            };
            if n == 0 {
                return self.finish(out);
            }
            match self.take(out, &piece[..n])? {
                Some(n) => return flushed(out, ServeEnd::NotACommand(n)),
                None => (),
            }
        }
        Err(ServeError::Read)
    }

    // Runs the line that the source ended in, if any.
    fn finish<W: Write>(&mut self, out: &mut W) -> Result<ServeEnd, ServeError>
        requires { HasRoom self.old }
        ensures { (seen said : List ℕ) → IsAfter self.old seen said → (more : List ℕ)
            × Appends (W.contents out.old) (W.contents out.new) more
            × Ended A seen (said ++ more) result }
    {
        if !self.line.is_empty() {
            match self.run_line(out)? {
                Some(n) => return flushed(out, ServeEnd::NotACommand(n)),
                None => (),
            }
        }
        flushed(out, ServeEnd::Finished)
    }

    // Takes bytes of the source. It answers the number of a line that is not a command.
    fn take<W: Write>(&mut self, out: &mut W, piece: &[u8]) -> Result<Option<u64>, ServeError>
        requires { HasRoom self.old }
        ensures room { result ≡ Ok None → HasRoom self.new }
        ensures ran { (seen said : List ℕ) → IsAfter self.old seen said → (more : List ℕ)
            × Appends (W.contents out.old) (W.contents out.new) more
            × PieceRun self.new (seen ++ piece.now) (said ++ more) result }
    {
        let mut rest = piece;
        while !rest.is_empty() {
            let (part, left) = rest.split_at(line_end(rest));
            if part.len() > MAX_LINE - self.line.len() {
                return refuse(&mut self.text, out, self.number);
            }
            self.line.extend_from_slice(part).unwrap();
            let Some((_feed, after)) = left.split_first() else {
                return Ok(None);
            };
            match self.run_line(out)? {
                Some(n) => return Ok(Some(n)),
                None => rest = after,
            }
        }
        Ok(None)
    }

    // Runs the line. It answers the line's number where it is not a command.
    fn run_line<W: Write>(&mut self, out: &mut W) -> Result<Option<u64>, ServeError>
        requires { HasRoom self.old }
        ensures room { result ≡ Ok None → HasRoom self.new }
        ensures ran { (front : List (List ℕ)) (said : List ℕ) → SpokenTo front said self.old.world
            → (more : List ℕ) × Appends (W.contents out.old) (W.contents out.new) more
            × LineRun self.old self.new front said more result }
    {
        let command = match command_in(self.alloc, &self.line) {
            Ok(command) => command,
            Err(_) => return Err(ServeError::Memory(TryReserveError::AllocError)),
        };
        match command {
            None => refuse(&mut self.text, out, self.number),
            Some(command) => {
                let reply = self.world.step(command);
                self.text.clear();
                match write_reply(&mut self.text, &reply) {
                    Ok(()) => write_text(out, &self.text)?,
                    Err(_) => return Err(ServeError::Memory(TryReserveError::AllocError)),
                }
                self.line.clear();
                self.number = self.number.saturating_add(1);
                Ok(None)
            }
        }
    }
}

// How many bytes stand before the first line feed, or all of them.
fn line_end(bytes: &[u8]) -> usize
    ensures within { result ≤ length bytes.now }
    ensures open { AllByRecursion (λ x. x ≢ 10) (take result bytes.now) }
    ensures feed { (x : ℕ) (after : List ℕ) → drop result bytes.now ≡ x ∷ after → x ≡ 10 }
{
    bytes
        .iter()
        .position(|byte| *byte == b'\n')
        .unwrap_or(bytes.len())
}

// Writes that the line after so many is not a command, and answers its number.
fn refuse<W: Write>(text: &mut Vec<u8>, out: &mut W, number: u64) -> Result<Option<u64>, ServeError>
    requires { 101 ≤ vec_capacity text.old }
    ensures { (more : List ℕ) × Appends (W.contents out.old) (W.contents out.new) more
        × FaultTold (min (number + 1) (2 ^ 64 - 1)) more result }
{
    let n = number.saturating_add(1);
    text.clear();
    match write_fault(text, n) {
        Ok(()) => write_text(out, text)?,
        Err(_) => return Err(ServeError::Memory(TryReserveError::AllocError)),
    }
    Ok(Some(n))
}

// Flushes the writer before the end is answered.
fn flushed<W: Write>(out: &mut W, end: ServeEnd) -> Result<ServeEnd, ServeError>
    ensures { Keeps (W.contents out.old) (W.contents out.new) × MatchResult result (λ x. x ≡ end) (λ e. e ≡ ServeError.Write) }
{
    match out.flush() {
        Ok(()) => Ok(end),
        Err(_) => Err(ServeError::Write),
    }
}

// Writes all of the text, or a beginning of it.
fn write_text<W: Write>(out: &mut W, text: &[u8]) -> Result<(), ServeError>
    ensures { (more : List ℕ) × Appends (W.contents out.old) (W.contents out.new) more
        × Written text.now more result }
{
    let mut rest = text;
    while !rest.is_empty() {
        match out.write(rest) {
            Ok(0) => return Err(ServeError::Write),
            Ok(n) => (_, rest) = rest.split_at(n),
            Err(_) => return Err(ServeError::Write),
        }
    }
    Ok(())
}

/// The exit status of an end, and the line for standard error without its line feed: the empty text where there is none.
pub fn ending(end: &Result<ServeEnd, ServeError>) -> (u8, &'static str)
    ensures { (result.0, result.1.now) ≡ ending_of end.now }
{
    match end {
        Ok(ServeEnd::Finished) => (0, ""),
        Ok(ServeEnd::NotACommand(_)) => (1, ""),
        Err(ServeError::Read) => (2, "input failed"),
        Err(ServeError::Write) => (2, "output failed"),
        Err(ServeError::Memory(_)) => (2, "no memory"),
    }
}
