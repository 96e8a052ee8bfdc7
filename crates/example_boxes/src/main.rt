//! Reads small files of media, and shows the tracks of each, or why it is not read.
#![tactic(auto)]

mod boxes;
mod error;
mod fields;
mod files;
mod tables;
mod tracks;

use std::io;
use tracks::tracks_in;

fn main(rt: HostRuntime) -> io::Result<()> {
    show_all(&rt)
}

fn show_all(rt: &(impl Print + AllocGlobal)) -> io::Result<()> {
    show(rt, "whole", files::WHOLE)?;
    show(rt, "cut", files::CUT)?;
    show(rt, "short", files::SHORT)?;
    show(rt, "huge", files::HUGE)?;
    show(rt, "inner", files::INNER)?;
    show(rt, "deep", files::DEEP)?;
    show(rt, "named", files::NAMED)?;
    show(rt, "tabled", files::TABLED)?;
    show(rt, "twins", files::TWINS)?;
    show(rt, "unnumbered", files::UNNUMBERED)
}

// A line for each track of the file, or one that tells why there are none.
fn show(rt: &(impl Print + AllocGlobal), name: &str, file: &[u8]) -> io::Result<()> {
    match tracks_in(rt.alloc(), file) {
        Ok(tracks) => {
            for (number, track) in &tracks {
                println!(rt; "{name}: track {number}: {track}")?;
            }
            Ok(())
        }
        Err(error) => println!(rt; "{name}: {error}"),
    }
}
