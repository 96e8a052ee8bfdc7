//! A table of locks on ranges of bytes: reads lines from standard input, and answers each by lines on standard output.
#![tactic(auto)]

mod command;
mod locks;
mod stretches;

use bounded_lines::{Line, Pieces};
use command::Command;
use locks::{Locks, Refusal};
use std::io;

/// The longest line, in bytes.
const LONGEST: usize = 80;

fn main(rt: HostRuntime) -> io::Result<()> {
    serve(&rt)
}

// Answers each line. The locks alone take memory.
fn serve(rt: &(impl Input + Print + AllocGlobal)) -> io::Result<()> {
    let mut locks = Locks::new(rt.alloc());
    let mut line = Line::<LONGEST>::new();
    let mut source = Pieces::new(rt.reader());
    for _ in 0..u64::MAX {
        if !line.read(&mut source)? {
            break;
        }
        match command::parse(&line) {
            Some(command) => answer(rt, &mut locks, command)?,
            None => println!(rt; "error: not a command")?,
        }
    }
    Ok(())
}

fn answer(rt: &impl Print, locks: &mut Locks, command: Command) -> io::Result<()> {
    match command {
        Command::Lock(start, end, owner) => tell(rt, locks.lock(start, end, owner), "locked"),
        Command::Unlock(start, end, owner) => tell(rt, locks.unlock(start, end, owner), "unlocked"),
        Command::Test(start, end, owner) => match locks.test(start, end, owner) {
            Some(other) => println!(rt; "held by {other}"),
            None => println!(rt; "free"),
        },
        Command::List => list(rt, locks),
    }
}

fn tell(rt: &impl Print, outcome: Result<(), Refusal>, done: &str) -> io::Result<()> {
    match outcome {
        Ok(()) => println!(rt; "{done}"),
        Err(Refusal::Empty) => println!(rt; "empty range"),
        Err(Refusal::Held(other)) => println!(rt; "held by {other}"),
        Err(Refusal::Memory(_refused)) => println!(rt; "out of memory"),
    }
}

fn list(rt: &impl Print, locks: &Locks) -> io::Result<()> {
    let walk = locks.iter();
    let count = walk.len();
    for (start, rest) in walk {
        let (end, owner) = *rest;
        println!(rt; "{start} {end} {owner}")?;
    }
    println!(rt; "{count} held")
}
