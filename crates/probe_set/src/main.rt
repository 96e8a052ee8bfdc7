//! Ordered sets behind rows of text: each row is echoed with what its calls answer. There are two sets, ours and theirs, and a row that asks
//! one set asks ours. An answer tells where a refused call left a set otherwise than it was (`changed`), and where other items live than those in the
//! sets and the one that is held (`lost`).
#![tactic(auto)]

mod both;
mod copies;
mod given;
mod item;
mod many;
mod maps;
mod near;
mod one;
mod out;
mod sets;
mod subsets;
mod texts;
mod walks;

use item::Tally;
use out::Out;
use sets::Sets;
use std::io::{self, Read};
use std::str::{self, SplitWhitespace};

// The longest row, in bytes.
const LONGEST: usize = 1024;

fn main(rt: HostRuntime) -> io::Result<()> {
    serve(&rt)
}

// Answers each row. What a row and its answer take is taken at the start.
fn serve(rt: &(impl Input + Print + AllocGlobal)) -> io::Result<()> {
    let (Ok(mut line), Ok(mut out)) = (
        Vec::with_capacity(rt.alloc(), LONGEST),
        Out::with_room(rt.alloc()),
    ) else {
        return println!(rt; "no memory");
    };
    let tally = Tally::new();
    let mut sets = Sets::new(rt.alloc(), &tally);
    for byte in rt.reader().bytes() {
        let byte = byte?;
        if byte == b'\n' {
            let row = str::from_utf8(line.as_slice()).unwrap_or("?");
            answer(&mut sets, row, &mut out);
            println!(rt; "{row}{}", out.text())?;
            line.clear();
            out.clear();
        } else if line.push(byte).is_err() {
            return println!(rt; "no memory");
        }
    }
    Ok(())
}

// A row is empty, a heading, or a command and its words: a walk and its steps, a map's text, sets of other items, or a call with each of its items.
fn answer<'a>(sets: &mut Sets<'a>, line: &str, out: &mut Out) {
    let mut words = line.split_whitespace();
    let name = words.next().unwrap_or("");
    if name == "" || name == "#" {
        return;
    }
    out.put(" ->");
    if name == "walk" {
        let kind = words.next().unwrap_or("");
        walks::take_steps(sets, kind, words.next().unwrap_or(""), out);
    } else if name == "map" {
        let what = words.next().unwrap_or("");
        maps::show_text(sets.alloc, what, words.next().unwrap_or(""), out);
    } else if name == "texts" {
        texts::show(sets.alloc, words.next().unwrap_or(""), out);
    } else if name == "hash" {
        texts::hash(sets.alloc, out);
    } else {
        call(sets, name, words, out);
    }
    if !sets.are_all_living() {
        out.word("lost");
    }
}

fn call<'a>(sets: &mut Sets<'a>, name: &str, words: SplitWhitespace<'_>, out: &mut Out) {
    let mut is_alone = true;
    for word in words {
        is_alone = false;
        let before = sets.digest();
        one::one_word(sets, name, word, out);
        tell_change(sets, before, out);
    }
    if is_alone {
        let before = sets.digest();
        both::alone(sets, name, out);
        tell_change(sets, before, out);
    }
}

// Tells where a refused call left one of the sets otherwise than it was.
fn tell_change(sets: &Sets<'_>, before: u64, out: &mut Out) {
    if out.is_refused && sets.digest() != before {
        out.word("changed");
    }
    out.is_refused = false;
}
