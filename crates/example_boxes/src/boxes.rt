//! Boxes, one after the other, none of which is longer than what is left of the bytes that hold it.
ghost use Rattle.std.specs.Prelude.{◌≡◌, ◌+◌, ◌<◌, ◌≤◌, ◌⊎◌, ◌↔◌, take, drop, length, IfOk, OnOk, IfErr, IsOk, IsErrOf};
ghost use Rattle.example_boxes.specs.Layout.{front_size, box_length, kind_of, HasBox};

use crate::error::Error;
use crate::fields::{split, split_letters, split_u32, split_u64};

/// The front of a box: how many bytes it takes, how many the whole box claims, and of which kind it is.
#[derive(Clone, Copy)]
pub struct Front {
    pub size: usize,
    pub length: usize,
    pub kind: [u8; 4],
}

/// A box: of which kind it is, and what it holds.
#[derive(Clone, Copy)]
pub struct Found<'a> {
    pub kind: [u8; 4],
    pub content: &'a [u8],
}

impl Found<'_> {
    /// Whether boxes of this kind hold boxes of a track.
    pub fn holds_boxes(&self) -> bool {
        matches!(&self.kind, b"mdia" | b"minf" | b"stbl")
    }
}

/// The front of the box that the bytes begin with.
///
/// # Errors
/// `Truncated` where not all of it is there.
pub fn front_in(bytes: &[u8]) -> Result<Front, Error>
    ensures size { IfOk result (λ front. front.size ≡ front_size bytes.now) }
    ensures length { IfOk result (λ front. front.length ≡ box_length bytes.now) }
    ensures kind { IfOk result (λ front. front.kind ≡ kind_of bytes.now) }
    ensures enough { OnOk result (front_size bytes.now ≤ length bytes.now) }
    ensures error { IfErr result (λ e. (e ≡ Error.Truncated) × (length bytes.now < front_size bytes.now)) }
{
    let (short, rest) = split_u32(bytes)?;
    let (kind, rest) = split_letters(rest)?;
    let (size, length) = match short {
        0 => (8, bytes.len()),
        1 => {
            let (long, _) = split_u64(rest)?;
            (16, long as usize)
        }
        _ => (8, short as usize),
    };
    Ok(Front { size, length, kind })
}

/// The box that the bytes begin with, and the bytes after it.
///
/// # Errors
/// `Truncated` where not all of the box is there, and `BadSize` where it claims fewer bytes than its front takes.
pub fn split_box(bytes: &[u8]) -> Result<(Found<'_>, &[u8]), Error>
    ensures kind { IfOk result (λ parts. parts.0.kind ≡ kind_of bytes.now) }
    ensures content { IfOk result (λ parts. parts.0.content.now ≡ drop (front_size bytes.now) (take (box_length bytes.now) bytes.now)) }
    ensures rest { IfOk result (λ parts. parts.1.now ≡ drop (box_length bytes.now) bytes.now) }
    ensures within { IfOk result (λ parts. 8 + length parts.0.content.now + length parts.1.now ≤ length bytes.now) }
    ensures enough { IsOk result ↔ HasBox bytes.now }
    ensures bad_size { IsErrOf result Error.BadSize ↔ (front_size bytes.now ≤ length bytes.now) × (box_length bytes.now < front_size bytes.now) }
    ensures error { IfErr result (λ e. (e ≡ Error.Truncated) ⊎ (e ≡ Error.BadSize)) }
{
    let front = front_in(bytes)?;
    if front.length < front.size {
        return Err(Error::BadSize);
    }
    let (whole, rest) = split(bytes, front.length)?;
    let content = &whole[front.size..];
    let kind = front.kind;
    Ok((Found { kind, content }, rest))
}

/// A walk over boxes that stand one after the other. After an error there is nothing.
#[derive(Drop)]
pub struct Boxes<'a> {
    rest: &'a [u8],
}

impl<'a> Boxes<'a> {
    /// A walk over the boxes that these bytes are.
    pub fn new(bytes: &'a [u8]) -> Boxes<'a> {
        Boxes { rest: bytes }
    }
}

impl<'a> Iterator for Boxes<'a> {
    ghost use Rattle.std.specs.Iterator.{at_most};

    type Item = Result<Found<'a>, Error>;

    ghost remaining = { λ boxes. at_most (length boxes.rest.now) };

    fn next(&mut self) -> Option<Result<Found<'a>, Error>> {
        if self.rest.is_empty() {
            return None;
        }
        match split_box(self.rest) {
            Ok((found, rest)) => {
                self.rest = rest;
                Some(Ok(found))
            }
            Err(error) => {
                self.rest = &[];
                Some(Err(error))
            }
        }
    }
}
