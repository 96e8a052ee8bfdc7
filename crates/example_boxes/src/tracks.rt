//! The tracks of a file of media that nobody has to trust.
ghost use Rattle.std.specs.Prelude.{◌≡◌, ◌+◌, ◌<◌, ◌≤◌, ◌⊎◌, ◌↔◌, take, drop, length, IsSome, IfOk, IfErr, OnOk, OnErr, IsErrOf};
ghost use Rattle.std.specs.Ordering.{nat_cmp};
ghost use Rattle.fallible_collections.specs.Words.{at, entries, put};
ghost use Rattle.example_boxes.specs.Layout.{text_of, times_size, track_number};
ghost use Rattle.example_boxes.specs.declared.tables.TheConstants.{LONGEST};

use crate::boxes::{Boxes, Found};
use crate::error::Error;
use crate::fields::{split, split_letters, split_u32};
use crate::tables::{Sizes, sizes_in, table_in, text_in};
use fallible_collections::TryVec;
use fallible_collections::btree::BTreeMap;
use std::alloc::Global;
use std::fmt;

/// How many boxes may be open in one another.
pub const DEPTH: usize = 8;

/// What was read of a track.
#[derive(Drop)]
pub struct Track {
    pub number: u32,
    pub handler: [u8; 4],
    pub name: TryVec<u8>,
    pub sizes: Sizes,
    /// Where in the file each run of samples begins.
    pub offsets: TryVec<u32>,
    ghost named: { length name.items ≤ LONGEST },
}

impl Track {
    // A track of which nothing was read. It takes no memory.
    fn new(alloc: Global) -> Track {
        Track {
            number: 0,
            handler: [b'.'; 4],
            name: TryVec::new(alloc),
            sizes: Sizes::Each(TryVec::new(alloc)),
            offsets: TryVec::new(alloc),
        }
    }
}

/// The tracks of a file by their numbers.
///
/// # Errors
/// Each `Error`: nothing of the file is then kept.
pub fn tracks_in(alloc: Global, file: &[u8]) -> Result<BTreeMap<u32, Track>, Error> {
    let mut tracks = BTreeMap::new(alloc);
    for found in Boxes::new(file) {
        let found = found?;
        if matches!(&found.kind, b"moov") {
            read_movie(alloc, found.content, &mut tracks)?;
        }
    }
    Ok(tracks)
}

// Reads the tracks of a movie.
fn read_movie(
    alloc: Global,
    content: &[u8],
    tracks: &mut BTreeMap<u32, Track>,
) -> Result<(), Error> {
    for found in Boxes::new(content) {
        let found = found?;
        if matches!(&found.kind, b"trak") {
            let mut track = Track::new(alloc);
            read_boxes(alloc, found.content, 2, &mut track)?;
            keep(tracks, track)?;
        }
    }
    Ok(())
}

// Reads boxes of a track that stand in so many others.
fn read_boxes(alloc: Global, content: &[u8], depth: usize, track: &mut Track) -> Result<(), Error>
    requires { depth ≤ DEPTH }
{
    for found in Boxes::new(content) {
        let found = found?;
        if !found.holds_boxes() {
            read_field(alloc, found, track)?;
        } else if depth == DEPTH {
            return Err(Error::TooDeep);
        } else {
            read_boxes(alloc, found.content, depth + 1, track)?;
        }
    }
    Ok(())
}

// Reads what a box without boxes in it tells of a track.
fn read_field(alloc: Global, found: Found<'_>, track: &mut Track) -> Result<(), Error> {
    let content = found.content;
    match &found.kind {
        b"tkhd" => track.number = number_in(content)?,
        b"hdlr" => {
            let (handler, name) = handler_in(alloc, content)?;
            track.handler = handler;
            track.name = name;
        }
        b"stsz" => track.sizes = sizes_in(alloc, content)?,
        b"stco" => {
            let (_flags, rest) = split_u32(content)?;
            track.offsets = table_in(alloc, rest)?;
        }
        _ => {}
    }
    Ok(())
}

// The number of a track stands after a version and two times, which take four bytes each in version 0, and eight else.
fn number_in(content: &[u8]) -> Result<u32, Error>
    ensures number { IfOk result (λ number. number ≡ track_number content.now) }
    ensures error { IfErr result (λ e. (e ≡ Error.Truncated) × (length content.now < 8 + times_size content.now)) }
{
    let (version, rest) = split_u32(content)?;
    let times = if version < 0x0100_0000 { 8 } else { 16 };
    let (_times, rest) = split(rest, times)?;
    let (number, _) = split_u32(rest)?;
    Ok(number)
}

// What handles a track, and its name.
fn handler_in(alloc: Global, content: &[u8]) -> Result<([u8; 4], TryVec<u8>), Error>
    ensures handler { IfOk result (λ parts. parts.0 ≡ take 4 (drop 8 content.now)) }
    ensures name { IfOk result (λ parts. parts.1.items ≡ text_of (drop 12 (drop 4 (drop 8 content.now)))) }
    ensures longest { IfOk result (λ parts. length parts.1.items ≤ LONGEST) }
{
    let (_flags, rest) = split(content, 8)?;
    let (handler, rest) = split_letters(rest)?;
    let (_reserved, rest) = split(rest, 12)?;
    let name = text_in(alloc, rest)?;
    Ok((handler, name))
}

// Puts a track at its number.
fn keep(tracks: &mut BTreeMap<u32, Track>, track: Track) -> Result<(), Error>
    ensures kept { OnOk result (entries tracks.new ≡ put nat_cmp (entries tracks.old) track.number track) }
    ensures unchanged { OnErr result (tracks.new ≡ tracks.old) }
    ensures bad_track { IsErrOf result Error.BadTrack ↔ (track.number ≡ 0) ⊎ IsSome (at nat_cmp (entries tracks.old) track.number) }
{
    let number = track.number;
    if number == 0 || tracks.contains_key(&number) {
        return Err(Error::BadTrack);
    }
    match tracks.try_insert(number, track) {
        Ok(_none) => Ok(()),
        Err((_number, _track, refused)) => Err(Error::Memory(refused)),
    }
}

/// What was read: what handles the track, its name, and its tables.
impl fmt::Display for Track {
    fn fmt<W: fmt::Write>(&self, f: &mut fmt::Formatter<W>) -> fmt::Result {
        let handler = str::from_utf8(&self.handler).unwrap_or("????");
        let name = str::from_utf8(self.name.as_slice()).unwrap_or("no text");
        let offsets = self.offsets.as_slice();
        write!(f, "{handler} {name:?}, ")?;
        match &self.sizes {
            Sizes::Same { count, size } => write!(f, "{count} samples of {size}")?,
            Sizes::Each(sizes) => {
                let sizes = sizes.as_slice();
                write!(f, "samples of {sizes:?}")?;
            }
        }
        write!(f, " at {offsets:?}")
    }
}
