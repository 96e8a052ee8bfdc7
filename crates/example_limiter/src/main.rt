//! A sliding-window limiter behind lines of text.
#![tactic(auto)]

mod commands;
mod limiter;

use bounded_lines::{Line, Pieces};
use commands::{Command, command_in};
use limiter::Limiter;
use std::io;

/// The longest line, in bytes.
const LONGEST: usize = 80;

/// How many requests of a client are allowed within how long a time.
const LIMIT: usize = 3;

const WINDOW: u64 = 10;

fn main(rt: HostRuntime) -> io::Result<()> {
    serve(&rt)
}

// Answers each line. The limiter alone takes memory.
fn serve(rt: &(impl Input + Print + AllocGlobal)) -> io::Result<()> {
    let mut limiter = Limiter::new(rt.alloc(), LIMIT, WINDOW);
    let mut line = Line::<LONGEST>::new();
    let mut source = Pieces::new(rt.reader());
    for _ in 0..u64::MAX {
        if !line.read(&mut source)? {
            break;
        }
        answer(rt, &mut limiter, &line)?;
    }
    Ok(())
}

fn answer(rt: &impl Print, limiter: &mut Limiter, line: &Line<LONGEST>) -> io::Result<()> {
    let Some(text) = line.text() else {
        return println!(rt; "error: a line is text of at most {LONGEST} bytes");
    };
    match command_in(text) {
        Some(Command::Allow(client, now)) => match limiter.allow(client, now) {
            Ok(true) => println!(rt; "allowed"),
            Ok(false) => println!(rt; "denied"),
            Err(_refused) => println!(rt; "out of memory: {client} at {now} is not counted"),
        },
        Some(Command::Count(client)) => {
            let count = limiter.count(client);
            println!(rt; "{count} kept")
        }
        None => println!(rt; "error: not a command"),
    }
}
