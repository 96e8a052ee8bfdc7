//! A cache within a budget of 100: reads lines from standard input, and answers each by lines on standard output.
#![tactic(auto)]

use bounded_lines::{Line, Pieces, number};
use fc_cache::{Cache, PutError};
use std::io::{self, BufWriter, Write};

// The most bytes of a line, and how many bytes of replies are kept.
const ROOM: usize = 1024;

// What all entries together may cost.
const BUDGET: usize = 100;

// Answers line after line. All room for replies is taken before the first.
fn main(rt: HostRuntime) -> io::Result<()> {
    let mut line = Line::<ROOM>::new();
    let mut source = Pieces::new(rt.reader());
    let mut out = BufWriter::with_capacity(rt.alloc(), ROOM, io::writer(&rt))?;
    let mut cache = Cache::new(rt.alloc(), BUDGET);
    for _ in 0..u64::MAX {
        if !line.read(&mut source)? {
            break;
        }
        match line.text() {
            Some(text) => answer(&mut cache, text, &mut out)?,
            None if line.is_too_long() => writeln!(out, "line too long")?,
            None => writeln!(out, "bad line")?,
        }
        out.flush()?;
    }
    out.flush()
}

// Runs the command that a text spells, whose words stand apart by single spaces, and writes its reply.
fn answer<W: Write>(cache: &mut Cache<u64, u64>, text: &str, out: &mut W) -> io::Result<()> {
    let (word, rest) = text.split_once(' ').unwrap_or((text, ""));
    match (word, entry(rest), number(rest)) {
        ("put", Some((key, value, cost)), _) => match cache.try_put(key, value, cost as usize) {
            Ok(()) => writeln!(out, "put"),
            Err((_, _, PutError::OverBudget)) => writeln!(out, "too large"),
            Err((_, _, PutError::Refused(_))) => writeln!(out, "out of memory"),
        },
        ("get", _, Some(key)) => write_value("", cache.get(&key).copied(), out),
        ("peek", _, Some(key)) => write_value("", cache.peek(&key).copied(), out),
        ("remove", _, Some(key)) => write_value("removed ", cache.remove(&key), out),
        _ if text == "oldest" => match cache.pop_oldest() {
            Some((key, value)) => writeln!(out, "removed {key} {value}"),
            None => writeln!(out, "none"),
        },
        _ if text == "used" => {
            writeln!(
                out,
                "{} of {BUDGET} in {} entries",
                cache.used(),
                cache.len()
            )
        }
        _ => writeln!(out, "bad line"),
    }
}

// Three numbers: a key, its value, and what the entry costs.
fn entry(text: &str) -> Option<(u64, u64, u64)> {
    let (key, rest) = text.split_once(' ')?;
    let (value, cost) = rest.split_once(' ')?;
    Some((number(key)?, number(value)?, number(cost)?))
}

// Writes a value after a text, if there is one.
fn write_value<W: Write>(said: &str, value: Option<u64>, out: &mut W) -> io::Result<()> {
    match value {
        Some(value) => writeln!(out, "{said}{value}"),
        None => writeln!(out, "none"),
    }
}
