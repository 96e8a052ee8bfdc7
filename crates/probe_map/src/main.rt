//! A map behind rows of text: each row calls it, and is answered by what the call gave.
#![tactic(auto)]

mod alike;
mod answer;
mod entries;
mod kept;
mod pairs;
mod ranges;
mod walks;
mod whole;
mod writes;

use answer::{Answer, UNKNOWN, show};
use fc_map::map::BTreeMap;
use probe_rows::items::{Counts, Item, World, fresh_lives, no_lives};
use probe_rows::row::{Repeat, Row, row_in};
use std::io::{self, Read};
use std::str;

pub(crate) type Map<'a> = BTreeMap<Item<'a>, Item<'a>>;

// So many pairs have lives of their own.
const PAIRS: usize = 512;

// The longest line, in bytes.
const LONGEST: usize = 160;

fn main(rt: HostRuntime) -> io::Result<()> {
    let Ok(lives) = fresh_lives(rt.alloc(), PAIRS) else {
        return println!(&rt; "no memory");
    };
    let sought = no_lives();
    let counts = Counts::new();
    let world = World {
        alloc: rt.alloc(),
        lives: &lives,
        sought: &sought,
        counts: &counts,
    };
    serve(&rt, world)
}

fn serve(rt: &(impl Input + Print), world: World<'_>) -> io::Result<()> {
    let mut map = BTreeMap::new(world.alloc);
    let mut other = BTreeMap::new(world.alloc);
    let mut line = [0u8; LONGEST];
    let mut len = 0usize;
    for byte in rt.reader().bytes() {
        let byte = byte?;
        if byte == b'\n' {
            answer_line(rt, &mut map, &mut other, world, after_front(&line, len))?;
            len = 0;
        } else if len < LONGEST {
            line[len] = byte;
            len += 1;
        }
    }
    Ok(())
}

// The first so many bytes, or all where there are no more.
fn after_front(line: &[u8], len: usize) -> &[u8] {
    match line.get(..len) {
        Some(front) => front,
        None => line,
    }
}

// A heading is repeated; each other line is repeated with its answers, with each of the numbers in the place of '@' on a line of its own.
fn answer_line<'a>(
    rt: &impl Print,
    map: &mut Map<'a>,
    other: &mut Map<'a>,
    world: World<'a>,
    line: &[u8],
) -> io::Result<()> {
    let Ok(text) = str::from_utf8(line) else {
        return println!(rt; "no text");
    };
    if line.is_empty() || line[0] == b'#' {
        return println!(rt; "{text}");
    }
    print!(rt; "{text}:")?;
    let (repeat, mut row) = row_in(text);
    let lines = if repeat.is_table { repeat.times } else { 1 };
    for turn in 0..lines {
        row.outer = repeat.number(turn);
        begin_line(rt, repeat, row.outer)?;
        answer_each(rt, map, other, world, row, repeat)?;
    }
    println!(rt; "")
}

fn begin_line(rt: &impl Print, repeat: Repeat, number: u64) -> io::Result<()> {
    if repeat.is_table {
        print!(rt; "\n  {number}:")
    } else {
        Ok(())
    }
}

// Answers a row with each of the numbers in the place of '$'. Right answers of a repeated row are counted, the others are shown.
fn answer_each<'a>(
    rt: &impl Print,
    map: &mut Map<'a>,
    other: &mut Map<'a>,
    world: World<'a>,
    row: Row,
    repeat: Repeat,
) -> io::Result<()> {
    let mut row = row;
    let mut right = 0u64;
    for turn in 0..repeat.times {
        row.inner = repeat.number(turn);
        let answer = run(map, other, world, &row);
        if repeat.is_each && answer.is_right() {
            right = right.wrapping_add(1);
        } else {
            show(rt, answer)?;
        }
    }
    if right > 0 {
        print!(rt; " {right} right")?;
    }
    Ok(())
}

// Each part answers its own rows.
fn run<'a>(map: &mut Map<'a>, other: &mut Map<'a>, world: World<'a>, row: &Row) -> Answer {
    match row.part {
        0 => pairs::run(map, world, row),
        1 => entries::run(map, world, row),
        2 => walks::run(map, world, row),
        3 => writes::run(map, world, row),
        4 => ranges::run(map, world, row),
        5 => whole::run(map, other, world, row),
        6 => whole::run_one(map, world, row),
        7 => whole::tell(world, row),
        8 => kept::run(map, world, row),
        _ => UNKNOWN,
    }
}
