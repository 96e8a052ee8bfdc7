//! Runs lines of commands from standard input to standard output, with all maps and sets in one budget of bytes.
#![tactic(auto)]

use fallible_collections::TryReserveError;
use fallible_collections::command::{ServeEnd, ServeError, ending, serve_within};
use fc_budget::Budget;
use std::cell::RefCell;
use std::env::{self, Args, Env};
use std::io::{self, BufWriter, ErrorKind, Write};
use std::process::ExitCode;
use turns::{Replies, Waiting};

// How many bytes of replies are kept before they go out.
const ROOM: usize = 8192;

fn main(rt: HostRuntime) -> ExitCode {
    let end = match bytes_told(&rt) {
        Ok(Some(bytes)) => run(&rt, bytes),
        Ok(None) => {
            let _ = eprintln!(rt;
                "one argument is wanted: the bytes that all maps and sets together may take"
            );
            return ExitCode::from(2);
        }
        Err(refused) => Err(ServeError::Memory(refused)),
    };
    let (status, line) = ending(&end);
    if !line.is_empty() {
        let _ = eprintln!(rt; "{line}");
    }
    ExitCode::from(status)
}

// The number that is the one argument after the program's name, if that is what stands there; or no memory for the arguments.
fn bytes_told(rt: &(impl Env + AllocGlobal)) -> Result<Option<usize>, TryReserveError> {
    match env::args(rt) {
        Ok(args) => Ok(number_in(args)),
        Err(e) if e.kind() == ErrorKind::OutOfMemory => Err(TryReserveError::AllocError),
        Err(_) => Ok(None),
    }
}

// The number that stands alone after the first argument.
fn number_in(args: Args) -> Option<usize> {
    let mut args = args;
    let _program = args.next()?;
    let word = args.next()?;
    if args.next().is_some() || !word.as_bytes().first()?.is_ascii_digit() {
        return None;
    }
    word.parse().ok()
}

// Serves standard input with buffered replies, which go out before each read and at every end.
fn run(rt: &(impl Input + Print + AllocGlobal), bytes: usize) -> Result<ServeEnd, ServeError> {
    let Ok(buffer) = BufWriter::with_capacity(rt.alloc(), ROOM, io::writer(rt)) else {
        return Err(ServeError::Memory(TryReserveError::AllocError));
    };
    let budget = Budget::new(rt.alloc(), bytes);
    let out = RefCell::new(buffer);
    let mut source = Waiting::new(rt.reader(), &out);
    let end = serve_within(rt.alloc(), &budget, &mut source, &mut Replies::new(&out));
    let flushed = Replies::new(&out).flush();
    if flushed.is_err() || source.output_failed() {
        return Err(ServeError::Write);
    }
    end
}
