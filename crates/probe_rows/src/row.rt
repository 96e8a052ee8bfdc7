//! Rows of text as words and numbers.
use std::str::SplitWhitespace;

/// So many words after the name are read.
pub const WORDS: usize = 8;

// The names of the rows that each of the parts, nine by number, answers, which knows a row by its place among them.
const NAMES: [&str; 9] = [
    "insert get pair index set remove removes query query_remove first last pop_first pop_last look_ups",
    "tally modify or_with entry_dropped",
    "walk keys_and_values clone_walk clone_keys_and_values owned owned_loops held drop_walk",
    "write write_values write_part overwrite visit",
    "range clone_range write_range visit_range range_costs",
    "swap copy compare extend_map step copy_refused extend make extend_pairs make_pairs extend_vec",
    "len is_empty clear drop fill holds pops",
    "comparisons calls left copies_left lives forget at_most",
    "retain extract room",
];

/// A number after marks: '=' includes a bound and '!' excludes it, and '$' and '@' add what a row is repeated with.
#[derive(Clone, Copy)]
pub struct Word {
    pub bound: u8,
    slot: u8,
    number: u64,
}

const NO_WORD: Word = Word {
    bound: 0,
    slot: 0,
    number: 0,
};

/// How a row is repeated: so many times, with numbers from the first on at a distance.
#[derive(Clone, Copy)]
pub struct Repeat {
    pub is_each: bool,
    // Whether each is repeated with each.
    pub is_table: bool,
    pub times: u64,
    first: u64,
    distance: u64,
}

#[derive(Clone, Copy)]
pub struct Row {
    pub part: usize,
    pub place: usize,
    words: [Word; WORDS],
    pub given: usize,
    // What '$' and '@' stand for.
    pub inner: u64,
    pub outer: u64,
}

impl Repeat {
    /// The number of a turn.
    pub fn number(&self, turn: u64) -> u64 {
        self.first.wrapping_add(turn.wrapping_mul(self.distance))
    }
}

impl Row {
    /// The number at a place, or 0 where there is none.
    pub fn number(&self, place: usize) -> u64 {
        if place >= WORDS {
            return 0;
        }
        let word = self.words[place];
        let added = if word.slot == b'$' {
            self.inner
        } else if word.slot == b'@' {
            self.outer
        } else {
            0
        };
        word.number.wrapping_add(added)
    }

    /// The mark of a bound at a place, or 0 where there is none.
    pub fn bound(&self, place: usize) -> u8 {
        if place >= WORDS {
            return 0;
        }
        self.words[place].bound
    }
}

/// The words of a line: a name and numbers, after 'each' or 'table', three numbers of how often, from which and how far on.
pub fn row_in(line: &str) -> (Repeat, Row) {
    let mut words = line.split_whitespace();
    let first = text_of(words.next());
    let is_table = first == "table";
    let is_each = is_table || first == "each";
    let mut repeat = Repeat {
        is_each,
        is_table,
        times: 1,
        first: 0,
        distance: 0,
    };
    if is_each {
        repeat.times = word_of(words.next()).number;
        repeat.first = word_of(words.next()).number;
        repeat.distance = word_of(words.next()).number;
    }
    let name = if is_each {
        text_of(words.next())
    } else {
        first
    };
    (repeat, numbers_in(words, place_of(name)))
}

fn numbers_in(words: SplitWhitespace<'_>, at: (usize, usize)) -> Row {
    let mut row = Row {
        part: at.0,
        place: at.1,
        words: [NO_WORD; WORDS],
        given: 0,
        inner: 0,
        outer: 0,
    };
    for word in words {
        if row.given < WORDS {
            row.words[row.given] = word_of(Some(word));
            row.given += 1;
        }
    }
    row
}

// The part that a name is of, and its place there. One that is not known is of a part after the last.
fn place_of(name: &str) -> (usize, usize) {
    for part in 0..NAMES.len() {
        if let Some(place) = place_among(NAMES[part], name) {
            return (part, place);
        }
    }
    (NAMES.len(), 0)
}

fn place_among(names: &str, name: &str) -> Option<usize> {
    let mut place = 0usize;
    for known in names.split_whitespace() {
        if known == name {
            return Some(place);
        }
        place = place.wrapping_add(1);
    }
    None
}

fn text_of(word: Option<&str>) -> &str {
    match word {
        Some(text) => text,
        None => "",
    }
}

fn word_of(text: Option<&str>) -> Word {
    let mut word = NO_WORD;
    for byte in text_of(text).as_bytes() {
        let byte = *byte;
        if byte == b'=' || byte == b'!' {
            word.bound = byte;
        } else if byte == b'$' || byte == b'@' {
            word.slot = byte;
        } else if byte >= b'0' && byte <= b'9' {
            let digit = u64::from(byte.wrapping_sub(b'0'));
            word.number = word.number.wrapping_mul(10).wrapping_add(digit);
        }
    }
    word
}
