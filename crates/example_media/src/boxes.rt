//! The front of a box: a length and a type.
ghost use Rattle.std.specs.Prelude.{◌≡◌, ◌≢◌, take, drop, length, MatchOption};
ghost use Rattle.std.specs.Int.{w32, from_be_bytes};

use std::fmt;

/// How many bytes the front of a box takes.
pub const FRONT: u64 = 8;

/// The front of a box: the length of the whole box in bytes, and its type.
#[derive(Clone, Copy)]
pub struct Header {
    pub length: u32,
    pub kind: [u8; 4],
}

impl Header {
    /// Whether boxes of this type hold boxes.
    pub fn holds_boxes(&self) -> bool {
        matches!(&self.kind, b"moov" | b"trak" | b"mdia" | b"udta")
    }
}

/// The front that eight bytes are: a length with its highest byte first, and the type. `None` where there are not eight.
pub fn header_in(bytes: &[u8]) -> Option<Header>
    ensures { MatchOption result (length bytes.now ≢ 8)
        (λ h. (h.length ≡ from_be_bytes w32 (take 4 bytes.now)) × (h.kind ≡ drop 4 bytes.now)) }
{
    match bytes {
        [a, b, c, d, k, l, m, n] => Some(Header {
            length: u32::from_be_bytes([*a, *b, *c, *d]),
            kind: [*k, *l, *m, *n],
        }),
        _ => None,
    }
}

/// The type as four characters, with a dot for a byte that is none.
impl fmt::Display for Header {
    fn fmt<W: fmt::Write>(&self, f: &mut fmt::Formatter<W>) -> fmt::Result {
        let [a, b, c, d] = self.kind;
        let (a, b, c, d) = (shown(a), shown(b), shown(c), shown(d));
        let length = self.length;
        write!(f, "{a}{b}{c}{d} {length}")
    }
}

/// The character that a byte is shown as.
pub fn shown(byte: u8) -> char {
    if byte.is_ascii_graphic() {
        char::from(byte)
    } else {
        '.'
    }
}
