//! Shows the boxes of a media file that nobody has to trust.
#![tactic(auto)]

mod boxes;
mod parser;

use boxes::shown;
use fallible_collections::TryVec;
use parser::{Fate, Found, Parser};
use std::io;

fn main(rt: HostRuntime) -> io::Result<()> {
    show_all(&rt)
}

fn show_all(rt: &(impl Input + Print + AllocGlobal)) -> io::Result<()> {
    let Ok(mut parser) = Parser::new(rt.alloc(), u64::MAX) else {
        return println!(rt; "out of memory");
    };
    let mut payload = TryVec::new(rt.alloc());
    let mut src = rt.reader();
    for _ in 0..u64::MAX {
        match parser.next(&mut src, &mut payload)? {
            Some(found) => show(rt, &found, payload.as_slice())?,
            None => break,
        }
    }
    Ok(())
}

// A line for what was found, indented by its depth.
fn show(rt: &impl Print, found: &Found, payload: &[u8]) -> io::Result<()> {
    let depth = match found {
        Found::Whole(_, _, depth) | Found::Stray(_, depth) | Found::CutOff(depth) => *depth,
    };
    for _ in 0..depth {
        print!(rt; "  ")?;
    }
    match found {
        Found::Whole(header, fate, _) => {
            print!(rt; "{header}")?;
            show_fate(rt, fate, payload)
        }
        Found::Stray(count, _) => println!(rt; "error: {count} bytes are no box"),
        Found::CutOff(_) => println!(rt; "error: the input ends here"),
    }
}

fn show_fate(rt: &impl Print, fate: &Fate, payload: &[u8]) -> io::Result<()> {
    match fate {
        Fate::Opened => println!(rt; ""),
        Fate::Kept => {
            print!(rt; " ")?;
            for byte in payload {
                let c = shown(*byte);
                print!(rt; "{c}")?;
            }
            println!(rt; "")
        }
        Fate::NotKept => println!(rt; " not kept"),
        Fate::Refused => println!(rt; " out of memory"),
        Fate::TooShort => println!(rt; " error: shorter than its own front"),
        Fate::TooLong => println!(rt; " error: longer than what is left of the box around it"),
        Fate::TooDeep => println!(rt; " error: too deep"),
        Fate::CutOff => println!(rt; " error: the input ends in it"),
    }
}
