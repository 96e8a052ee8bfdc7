//! Timers by their ids: reads lines from standard input, and answers each by lines on standard output.
#![tactic(auto)]

ghost use Rattle.std.specs.Prelude.{◌≡◌, OnOk, OnErr};
ghost use Rattle.std.specs.Ordering.{nat_cmp};
ghost use Rattle.fc_base.specs.OneKey.{put};
ghost use Rattle.fc_map.specs.Entries.{entries};
ghost use Rattle.fc_timers.specs.Timers.{by_time_then_turn};
ghost use Rattle.fc_timers.specs.declared.timer.Timer.{Timer as Key};

use bounded_lines::{Line, Pieces, number};
use fc_map::map::BTreeMap;
use fc_timers::{Timer, TimerQueue, TryReserveError};
use std::io::{self, BufWriter, Write};

// The most bytes of a line, and how many bytes of replies are kept.
const ROOM: usize = 1024;

// The ids of timers by their times, and by each id its timer.
#[derive(Drop)]
struct Timers {
    queue: TimerQueue<u64, u64>,
    by_id: BTreeMap<u64, Timer>,
}

// Answers line after line. All room for replies is taken before the first.
fn main(rt: HostRuntime) -> io::Result<()> {
    let mut line = Line::<ROOM>::new();
    let mut source = Pieces::new(rt.reader());
    let mut out = BufWriter::with_capacity(rt.alloc(), ROOM, io::writer(&rt))?;
    let mut timers = Timers {
        queue: TimerQueue::new(rt.alloc()),
        by_id: BTreeMap::new(rt.alloc()),
    };
    for _ in 0..u64::MAX {
        if !line.read(&mut source)? {
            break;
        }
        match line.text() {
            Some(text) => answer(&mut timers, text, &mut out)?,
            None if line.is_too_long() => writeln!(out, "line too long")?,
            None => writeln!(out, "bad line")?,
        }
        out.flush()?;
    }
    out.flush()
}

// Runs the command that a text spells, whose words stand apart by single spaces, and writes its reply.
fn answer<W: Write>(timers: &mut Timers, text: &str, out: &mut W) -> io::Result<()> {
    let (word, rest) = text.split_once(' ').unwrap_or((text, ""));
    match (word, pair(rest), number(rest)) {
        ("add", Some((id, _)), _) if timers.by_id.contains_key(&id) => {
            writeln!(out, "timer {id} is set already")
        }
        ("add", Some((id, due)), _) => match timers.add(id, due) {
            Ok(()) => writeln!(out, "added"),
            Err(_) => writeln!(out, "out of memory"),
        },
        ("move", Some((id, due)), _) => match timers.reschedule(id, due) {
            Some(was) => writeln!(out, "moved, was due at {was}"),
            None => writeln!(out, "no timer {id}"),
        },
        ("cancel", _, Some(id)) => match timers.cancel(id) {
            Some(was) => writeln!(out, "cancelled, was due at {was}"),
            None => writeln!(out, "no timer {id}"),
        },
        ("due", _, Some(now)) => timers.expire(now, out),
        _ if text == "next" => match timers.queue.next_deadline() {
            Some(due) => writeln!(out, "next at {due}"),
            None => writeln!(out, "none is set"),
        },
        _ if text == "count" => writeln!(out, "{} set", timers.queue.len()),
        _ => writeln!(out, "bad line"),
    }
}

// Two numbers.
fn pair(text: &str) -> Option<(u64, u64)> {
    let (first, second) = text.split_once(' ')?;
    Some((number(first)?, number(second)?))
}

impl Timers {
    // Sets a timer whose id no other has. Where memory was refused, all is as it was.
    fn add(&mut self, id: u64, due: u64) -> Result<(), TryReserveError>
        ensures put { OnOk result ((timer : Key) × (self.new.queue.timers ≡ put (by_time_then_turn nat_cmp) self.old.queue.timers (due, self.old.queue.next_turn) (timer, id)) × (entries self.new.by_id ≡ put nat_cmp (entries self.old.by_id) id timer)) }
        ensures unchanged { OnErr result (self.new ≡ self.old) }
    {
        let mut nodes = self.by_id.try_reserve_nodes(1)?;
        let timer = self.queue.try_insert(due, id).map_err(|e| e.2)?;
        self.by_id.insert_reserved(&mut nodes, id, timer);
        Ok(())
    }

    // Gives the timer of an id another time, and answers the one that it had.
    fn reschedule(&mut self, id: u64, due: u64) -> Option<u64> {
        let timer = self.by_id.get(&id)?;
        self.queue.reschedule(*timer, due).ok()
    }

    // Takes the timer of an id out, and answers when it was due.
    fn cancel(&mut self, id: u64) -> Option<u64> {
        let timer = self.by_id.remove(&id)?;
        let (due, _id) = self.queue.cancel(timer)?;
        Some(due)
    }

    // Takes out all that are due, and writes each, and how many they were.
    fn expire<W: Write>(&mut self, now: u64, out: &mut W) -> io::Result<()> {
        for count in 0..u64::MAX {
            let Some((_timer, due, id)) = self.queue.pop_due(&now) else {
                return writeln!(out, "{count} due");
            };
            self.by_id.remove(&id);
            writeln!(out, "{id} was due at {due}")?;
        }
        writeln!(out, "{} due", u64::MAX)
    }
}
