//! Runs lines of commands from standard input to standard output.
#![tactic(auto)]

use fallible_collections::TryReserveError;
use fallible_collections::command::{ServeEnd, ServeError, ending, serve};
use std::cell::RefCell;
use std::io::{self, BufWriter, Write};
use std::process::ExitCode;
use turns::{Replies, Waiting};

// How many bytes of replies are kept before they go out.
const ROOM: usize = 8192;

fn main(rt: HostRuntime) -> ExitCode {
    let end = run(&rt);
    let (status, line) = ending(&end);
    if !line.is_empty() {
        let _ = eprintln!(rt; "{line}");
    }
    ExitCode::from(status)
}

// Serves standard input with buffered replies, which go out before each read and at every end.
fn run(rt: &(impl Input + Print + AllocGlobal)) -> Result<ServeEnd, ServeError> {
    let Ok(buffer) = BufWriter::with_capacity(rt.alloc(), ROOM, io::writer(rt)) else {
        return Err(ServeError::Memory(TryReserveError::AllocError));
    };
    let out = RefCell::new(buffer);
    let mut source = Waiting::new(rt.reader(), &out);
    let end = serve(rt.alloc(), &mut source, &mut Replies::new(&out));
    let flushed = Replies::new(&out).flush();
    if flushed.is_err() || source.output_failed() {
        return Err(ServeError::Write);
    }
    end
}
