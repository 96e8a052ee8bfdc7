//! Parts in a store, by their ids, shelves and prices: reads lines from standard input, and answers each by lines on standard output.
#![tactic(auto)]

use bounded_lines::{Line, Pieces, number};
use fc_index::{Keyed, Table};
use fc_set::set::Range;
use std::io::{self, BufWriter, Write};
use std::ops::Bound;

// The most bytes of a line, and how many bytes of replies are kept.
const ROOM: usize = 1024;

// Parts by their ids, each with its shelf, its price, and how many there are.
type Parts = Table<u64, u64, u64, u64>;

// Answers line after line. All room for replies is taken before the first.
fn main(rt: HostRuntime) -> io::Result<()> {
    let mut line = Line::<ROOM>::new();
    let mut source = Pieces::new(rt.reader());
    let mut out = BufWriter::with_capacity(rt.alloc(), ROOM, io::writer(&rt))?;
    let mut parts = Table::new(rt.alloc());
    for _ in 0..u64::MAX {
        if !line.read(&mut source)? {
            break;
        }
        match line.text() {
            Some(text) => answer(&mut parts, text, &mut out)?,
            None if line.is_too_long() => writeln!(out, "line too long")?,
            None => writeln!(out, "bad line")?,
        }
        out.flush()?;
    }
    out.flush()
}

// Runs the command that a text spells, whose words stand apart by single spaces, and writes its reply.
fn answer<W: Write>(parts: &mut Parts, text: &str, out: &mut W) -> io::Result<()> {
    let (word, rest) = text.split_once(' ').unwrap_or((text, ""));
    match (word, number(rest), pair(rest), four(rest)) {
        ("add", _, _, Some((id, shelf, price, count))) => {
            match parts.try_insert(id, shelf, price, count) {
                Ok(Some(old)) => write_part("replaced ", &old, out),
                Ok(None) => writeln!(out, "added"),
                Err(_) => writeln!(out, "out of memory"),
            }
        }
        ("set", _, Some((id, count)), _) => match parts.set_value(id, count) {
            Ok(was) => writeln!(out, "was {was}"),
            Err(_) => writeln!(out, "no part {id}"),
        },
        ("part", Some(id), _, _) => match parts.get(id) {
            Some(part) => write_part("", part, out),
            None => writeln!(out, "no part {id}"),
        },
        ("remove", Some(id), _, _) => match parts.remove(id) {
            Some(part) => write_part("removed ", &part, out),
            None => writeln!(out, "no part {id}"),
        },
        ("shelf", _, Some((from, to)), _) => {
            write_walk(
                parts.by_first((Bound::Included(from), Bound::Excluded(to))),
                out,
            )
        }
        ("price", _, Some((from, to)), _) => {
            write_walk(
                parts.by_second((Bound::Included(from), Bound::Excluded(to))),
                out,
            )
        }
        _ if text == "list" => list(parts, out),
        _ => writeln!(out, "bad line"),
    }
}

// Two numbers.
fn pair(text: &str) -> Option<(u64, u64)> {
    let (first, second) = text.split_once(' ')?;
    Some((number(first)?, number(second)?))
}

// Four numbers.
fn four(text: &str) -> Option<(u64, u64, u64, u64)> {
    let (first, rest) = text.split_once(' ')?;
    let (second, rest) = rest.split_once(' ')?;
    let (third, fourth) = pair(rest)?;
    Some((number(first)?, number(second)?, third, fourth))
}

// Writes a part after a text.
fn write_part<W: Write>(said: &str, part: &Keyed<u64, u64, u64>, out: &mut W) -> io::Result<()> {
    writeln!(out, "{said}{} {} {}", part.first, part.second, part.value)
}

// Writes each key with its id, and how many there are.
fn write_walk<W: Write>(walk: Range<'_, (u64, u64)>, out: &mut W) -> io::Result<()> {
    let mut count: u64 = 0;
    for (key, id) in walk {
        writeln!(out, "{key} {id}")?;
        count = count.saturating_add(1);
    }
    writeln!(out, "{count} parts")
}

// Writes each part by its id, and how many there are.
fn list<W: Write>(parts: &Parts, out: &mut W) -> io::Result<()> {
    for (id, part) in parts.iter() {
        writeln!(out, "{id} {} {} {}", part.first, part.second, part.value)?;
    }
    writeln!(out, "{} parts", parts.len())
}
