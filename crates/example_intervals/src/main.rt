//! A map from points to values by intervals: reads lines from standard input, and answers each by lines on standard output.
#![tactic(auto)]

ghost use Rattle.std.specs.Prelude.{◌≡◌, ◌⊎◌, ℕ, ◌<◌, ◌≤◌, OnOk, OnErr, Some};
ghost use Rattle.std.specs.Ordering.{nat_cmp};
ghost use Rattle.fc_intervals.specs.Stretches.{value_at_point};

use bounded_lines::{Line, Pieces, number};
use fc_intervals::{IntervalMap, TryReserveError};
use std::io::{self, BufWriter, Write};

// The most bytes of a line, and how many bytes of replies are kept.
const ROOM: usize = 1024;

// Each point's value.
type Intervals = IntervalMap<u64, u64>;

// Answers line after line. All room for replies is taken before the first.
fn main(rt: HostRuntime) -> io::Result<()> {
    let mut line = Line::<ROOM>::new();
    let mut source = Pieces::new(rt.reader());
    let mut out = BufWriter::with_capacity(rt.alloc(), ROOM, io::writer(&rt))?;
    let mut intervals = IntervalMap::new(rt.alloc());
    for _ in 0..u64::MAX {
        if !line.read(&mut source)? {
            break;
        }
        match line.text() {
            Some(text) => answer(&mut intervals, text, &mut out)?,
            None if line.is_too_long() => writeln!(out, "line too long")?,
            None => writeln!(out, "bad line")?,
        }
        out.flush()?;
    }
    out.flush()
}

// Runs the command that a text spells, whose words stand apart by single spaces, and writes its reply.
fn answer<W: Write>(map: &mut Intervals, text: &str, out: &mut W) -> io::Result<()> {
    let (word, rest) = text.split_once(' ').unwrap_or((text, ""));
    match (word, interval(rest), number(rest)) {
        ("put", Some((start, end, _)), _) if end <= start => writeln!(out, "empty interval"),
        ("put", Some((start, end, value)), _) => done(put(map, start, end, value), out),
        ("at", _, Some(point)) => match map.get(point) {
            Some(value) => writeln!(out, "{value}"),
            None => writeln!(out, "none"),
        },
        _ if text == "list" => list(map, out),
        _ => answer_of_range(map, word, rest, out),
    }
}

// The same of a command on a range of points that has no value, or on a point where an interval is cut in two.
fn answer_of_range<W: Write>(
    map: &mut Intervals,
    word: &str,
    rest: &str,
    out: &mut W,
) -> io::Result<()> {
    match (word, range(rest), number(rest)) {
        ("cut", Some((start, end)), _) => done(map.try_cut(start..end), out),
        ("split", _, Some(point)) => done(map.try_split_at(point), out),
        ("join", _, Some(point)) if map.join_at(point) => writeln!(out, "joined"),
        ("join", _, Some(_)) => writeln!(out, "apart"),
        ("over", Some((start, end)), _) => list_over(map, start, end, out),
        ("gaps", Some((start, end)), _) => list_gaps(map, start, end, out),
        _ => writeln!(out, "bad line"),
    }
}

// Tells whether a call was refused.
fn done<W: Write>(answer: Result<(), TryReserveError>, out: &mut W) -> io::Result<()> {
    match answer {
        Ok(()) => writeln!(out, "ok"),
        Err(_) => writeln!(out, "out of memory"),
    }
}

// Two numbers: where a range starts and ends.
fn range(text: &str) -> Option<(u64, u64)> {
    let (start, end) = text.split_once(' ')?;
    Some((number(start)?, number(end)?))
}

// Three numbers: where an interval starts and ends, and the value of its points.
fn interval(text: &str) -> Option<(u64, u64, u64)> {
    let (start, rest) = text.split_once(' ')?;
    let (end, value) = rest.split_once(' ')?;
    Some((number(start)?, number(end)?, number(value)?))
}

// Gives all points from `start` up to, and without, `end` a value. Where memory was refused, the map is as it was.
fn put(map: &mut Intervals, start: u64, end: u64, value: u64) -> Result<(), TryReserveError>
    ensures inside { OnOk result ((p : ℕ) → start ≤ p → p < end → value_at_point nat_cmp map.new p ≡ Some value) }
    ensures outside { OnOk result ((p : ℕ) → (p < start) ⊎ (end ≤ p) → value_at_point nat_cmp map.new p ≡ value_at_point nat_cmp map.old p) }
    ensures unchanged { OnErr result (map.new ≡ map.old) }
{
    map.try_put(start..end, value)?;
    Ok(())
}

// Writes how many intervals there are, and each, in order.
fn list<W: Write>(map: &Intervals, out: &mut W) -> io::Result<()> {
    writeln!(out, "intervals: {}", map.len())?;
    for (start, stretch) in map.iter() {
        writeln!(out, "{start} {} {}", stretch.end, stretch.value)?;
    }
    Ok(())
}

// Writes the intervals that have a point of a range, in order, and then how many they are.
fn list_over<W: Write>(map: &Intervals, start: u64, end: u64, out: &mut W) -> io::Result<()> {
    let mut count = 0u64;
    for (start, stretch) in map.overlapping(start..end) {
        writeln!(out, "{start} {} {}", stretch.end, stretch.value)?;
        count = count.wrapping_add(1);
    }
    writeln!(out, "over: {count}")
}

// Writes the parts of a range in which no point has a value, in order, and then how many they are.
fn list_gaps<W: Write>(map: &Intervals, start: u64, end: u64, out: &mut W) -> io::Result<()> {
    let mut count = 0u64;
    for gap in map.gaps(start..end) {
        writeln!(out, "{} {}", gap.start, gap.end)?;
        count = count.wrapping_add(1);
    }
    writeln!(out, "gaps: {count}")
}
