//! Small files, as bytes: a whole one, and some that nobody should believe.

/// Two tracks, the first with a table of lengths, the second with one length for all; and after them what they consist of, with a length of eight bytes. A box
/// ends after what is read of it.
pub const WHOLE: &[u8] = b"\
    \0\0\0\x10ftypisom\0\0\x02\0\
    \0\0\x01\x3amoov\
      \0\0\0\x0cmvhd\0\0\0\0\
      \0\0\0\x99trak\
        \0\0\0\x18tkhd\0\0\0\0\0\0\0\0\0\0\0\0\0\0\0\x01\
        \0\0\0\x79mdia\
          \0\0\0\x29hdlr\0\0\0\0\0\0\0\0vide\0\0\0\0\0\0\0\0\0\0\0\0Pictures\0\
          \0\0\0\x48minf\
            \0\0\0\x40stbl\
              \0\0\0\x20stsz\0\0\0\0\0\0\0\0\0\0\0\x03\0\0\0\x0a\0\0\0\x14\0\0\0\x1e\
              \0\0\0\x18stco\0\0\0\0\0\0\0\x02\0\0\x01\xf4\0\0\x02\x58\
      \0\0\0\x8dtrak\
        \0\0\0\x20tkhd\x01\0\0\0\0\0\0\0\0\0\0\0\0\0\0\0\0\0\0\0\0\0\0\x07\
        \0\0\0\x65mdia\
          \0\0\0\x25hdlr\0\0\0\0\0\0\0\0soun\0\0\0\0\0\0\0\0\0\0\0\0Sound\
          \0\0\0\x38minf\
            \0\0\0\x30stbl\
              \0\0\0\x14stsz\0\0\0\0\0\0\0\x10\0\0\0\x04\
              \0\0\0\x14stco\0\0\0\0\0\0\0\x01\0\0\x02\xbc\
    \0\0\0\x01mdat\0\0\0\0\0\0\0\x14abcd";

/// A box of 32 bytes, of which 16 are there.
pub const CUT: &[u8] = b"\
    \0\0\0\x20moov\
      \0\0\0\x08free";

/// A box of 4 bytes.
pub const SHORT: &[u8] = b"\
    \0\0\0\x04free";

/// A box of 2^63 bytes.
pub const HUGE: &[u8] = b"\
    \0\0\0\x01mdat\x80\0\0\0\0\0\0\0";

/// A track that is longer than the movie that holds it, by the box after this.
pub const INNER: &[u8] = b"\
    \0\0\0\x10moov\
      \0\0\0\x10trak\
    \0\0\0\x08free";

/// Nine boxes in one another.
pub const DEEP: &[u8] = b"\
    \0\0\0\x48moov\
      \0\0\0\x40trak\
        \0\0\0\x38mdia\
          \0\0\0\x30mdia\
            \0\0\0\x28mdia\
              \0\0\0\x20mdia\
                \0\0\0\x18mdia\
                  \0\0\0\x10mdia\
                    \0\0\0\x08mdia";

/// A name of 65 bytes.
pub const NAMED: &[u8] = b"\
    \0\0\0\x79moov\
      \0\0\0\x71trak\
        \0\0\0\x69mdia\
          \0\0\0\x61hdlr\0\0\0\0\0\0\0\0text\0\0\0\0\0\0\0\0\0\0\0\0nnnnnnnnnnnnnnnnnnnnnnnnnnnnnnnnnnnnnnnnnnnnnnnnnnnnnnnnnnnnnnnnn";

/// A table that claims 2^32 - 1 entries, of which one is there.
pub const TABLED: &[u8] = b"\
    \0\0\0\x24moov\
      \0\0\0\x1ctrak\
        \0\0\0\x14stco\0\0\0\0\xff\xff\xff\xff\0\0\0\x01";

/// Two tracks of the same number.
pub const TWINS: &[u8] = b"\
    \0\0\0\x48moov\
      \0\0\0\x20trak\
        \0\0\0\x18tkhd\0\0\0\0\0\0\0\0\0\0\0\0\0\0\0\x01\
      \0\0\0\x20trak\
        \0\0\0\x18tkhd\0\0\0\0\0\0\0\0\0\0\0\0\0\0\0\x01";

/// A track without a number.
pub const UNNUMBERED: &[u8] = b"\
    \0\0\0\x10moov\
      \0\0\0\x08trak";
