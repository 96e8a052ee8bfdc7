//! Lines as commands.
ghost use Rattle.std.specs.Prelude.{◌≡◌, ◌^◌, ◌∷◌, ◌==◌, IfOk, OnErr, position, nat_lt, Some, None, IsTrue, vec_items, if◌then◌else◌, []};
ghost use Rattle.std.specs.List.{list_all};
ghost use Rattle.std.specs.Char.{is_ascii_digit};
ghost use Rattle.std.specs.Str.Parse.{digits_value};
ghost use Rattle.std.specs.Option.{option_map};
ghost use Rattle.fc_lines.specs.Lines.{words_of, words_left};
ghost use Rattle.fc_lines.specs.Room.{NamesList};
ghost use Rattle.fc_lines.specs.Grammar.{
  command_of,
  number_of,
  bound_of,
  end_of,
  one_write_of,
  some_read,
  word_at,
  number_at,
  bound_at,
  pair_at,
  some_pairs,
  is_text,
  is_end,
  whole_line,
  on_whole_map,
  on_key,
  on_pair,
  entry_of,
  plain_of,
  steps_of,
  walk_of,
  write_of,
  extend_of,
  on_map_of,
  both_of,
  on_one_of,
};

use crate::command::{Command, End, Side};
use crate::items::Items;
use crate::set_lines::{keep_in, on_set_in};
use std::alloc::{AllocError, Global};
use std::ops::Bound;

/// The most bytes that a line has, without its line feed.
pub const MAX_LINE: usize = 4096;

/// The command that a line asks for, if it is one.
///
/// # Errors
/// `AllocError` where room for a list that the line names was refused, so that its first word is `walk`, `write` or `extend`.
#[tactic(auto, unfolding(crate::specs::Grammar::command_of, crate::specs::Grammar::command_of_words))]
pub fn command_in(alloc: Global, line: &[u8]) -> Result<Option<Command<u64, u64>>, AllocError>
    ensures command { IfOk result (λ command. command ≡ command_of line.now) }
    ensures list { OnErr result (NamesList (words_of line.now)) }
{
    if line.len() > MAX_LINE {
        return Ok(None);
    }
    let (word, words) = first_word(line);
    match word {
        b"both" => Ok(both_in(words)),
        b"keep" => Ok(keep_in(words)),
        _ => on_one_in(alloc, word, words),
    }
}

// The words after `both` are a key and a value for the first map, and a key and a value for the second.
#[tactic(auto, unfolding(crate::specs::Grammar::both_of))]
fn both_in(words: Option<&[u8]>) -> Option<Command<u64, u64>>
    ensures { result ≡ both_of (words_left words.entry) }
{
    let (key, words) = next_number(words)?;
    let (value, words) = next_number(words)?;
    let (second_key, words) = next_number(words)?;
    let (second_value, words) = next_number(words)?;
    at_line_end(
        Command::InsertBoth(key, value, second_key, second_value),
        words,
    )
}

// The words after such a word are a map or a set, and what the word wants after it.
#[tactic(auto, unfolding(crate::specs::Grammar::on_one_of))]
fn on_one_in(
    alloc: Global,
    word: &[u8],
    words: Option<&[u8]>,
) -> Result<Option<Command<u64, u64>>, AllocError>
    ensures command { IfOk result (λ command. command ≡ on_one_of word.entry.now (words_left words.entry)) }
    ensures list { OnErr result (NamesList (word.entry.now ∷ [])) }
{
    let Some((name, words)) = next_word(words) else {
        return Ok(None)
    };
    match name {
        b"a" => on_map_in(alloc, word, Side::First, words),
        b"b" => on_map_in(alloc, word, Side::Second, words),
        b"s" => on_set_in(alloc, word, Side::First, words),
        b"t" => on_set_in(alloc, word, Side::Second, words),
        _ => Ok(None),
    }
}

// What a word and those after the map ask of it.
#[tactic(auto, unfolding(crate::specs::Grammar::on_map_of))]
fn on_map_in(
    alloc: Global,
    word: &[u8],
    side: Side,
    words: Option<&[u8]>,
) -> Result<Option<Command<u64, u64>>, AllocError>
    ensures command { IfOk result (λ command. command ≡ on_map_of word.entry.now side (words_left words.entry)) }
    ensures list { OnErr result (NamesList (word.entry.now ∷ [])) }
{
    match word {
        _ if is_word(word, b"walk") => walk_in(alloc, side, words),
        _ if is_word(word, b"write") => write_in(alloc, side, words),
        _ if is_word(word, b"extend") => extend_in(alloc, side, words),
        _ => Ok(plain_in(word, side, words)),
    }
}

// How many numbers are after the map tells in which table the word stands.
#[tactic(auto, unfolding(crate::specs::Grammar::plain_of, crate::specs::Grammar::keyed_of, crate::specs::Grammar::valued_of))]
fn plain_in(word: &[u8], side: Side, words: Option<&[u8]>) -> Option<Command<u64, u64>>
    ensures { result ≡ plain_of word.entry.now side (words_left words.entry) }
{
    if is_line_end(words) {
        return whole_in(word, side);
    }
    let (key, words) = next_number(words)?;
    if is_line_end(words) {
        return on_key_in(word, side, key);
    }
    let (value, words) = next_number(words)?;
    if is_line_end(words) {
        return on_pair_in(word, side, key, value);
    }
    entry_in(word, side, key, value, words)
}

// After the first value is the second one of an entry.
#[tactic(auto, unfolding(crate::specs::Grammar::entry_of))]
fn entry_in(
    word: &[u8],
    side: Side,
    key: u64,
    there: u64,
    words: Option<&[u8]>,
) -> Option<Command<u64, u64>>
    ensures { result ≡ entry_of word.entry.now side key there (words_left words.entry) }
{
    let (new, words) = next_number(words)?;
    match word {
        b"entry" => at_line_end(Command::Entry(side, key, there, new), words),
        _ => None,
    }
}

// The command that a word asks for on a map.
fn whole_in(word: &[u8], side: Side) -> Option<Command<u64, u64>>
    ensures { result ≡ on_whole_map word.entry.now side }
{
    match word {
        _ if is_word(word, b"len") => Some(Command::Len(side)),
        _ if is_word(word, b"clear") => Some(Command::Clear(side)),
        _ if is_word(word, b"append") => Some(Command::Append(side)),
        _ if is_word(word, b"copy") => Some(Command::TryClone(side)),
        _ => None,
    }
}

// The command that a word asks for on a map and a key.
fn on_key_in(word: &[u8], side: Side, key: u64) -> Option<Command<u64, u64>>
    ensures { result ≡ on_key word.entry.now side key }
{
    match word {
        _ if is_word(word, b"get") => Some(Command::Get(side, key)),
        _ if is_word(word, b"pair") => Some(Command::GetKeyValue(side, key)),
        _ if is_word(word, b"has") => Some(Command::ContainsKey(side, key)),
        _ if is_word(word, b"remove") => Some(Command::Remove(side, key)),
        _ if is_word(word, b"evict") => Some(Command::RemoveEntry(side, key)),
        _ if is_word(word, b"split") => Some(Command::SplitOff(side, key)),
        _ => None,
    }
}

// The command that a word asks for on a map, a key and a value.
fn on_pair_in(word: &[u8], side: Side, key: u64, value: u64) -> Option<Command<u64, u64>>
    ensures { result ≡ on_pair word.entry.now side key value }
{
    match word {
        _ if is_word(word, b"insert") => Some(Command::Insert(side, key, value)),
        _ if is_word(word, b"set") => Some(Command::Set(side, key, value)),
        _ => None,
    }
}

#[tactic(auto, unfolding(crate::specs::Grammar::walk_of))]
fn walk_in(
    alloc: Global,
    side: Side,
    words: Option<&[u8]>,
) -> Result<Option<Command<u64, u64>>, AllocError>
    ensures { IfOk result (λ command. command ≡ walk_of side (words_left words.entry)) }
{
    let Some((lo, hi, ends)) = steps_in(alloc, words)? else {
        return Ok(None)
    };
    Ok(Some(Command::Walk(side, lo, hi, ends)))
}

// The words that are left are two bounds and one word of letters.
#[tactic(auto, unfolding(crate::specs::Grammar::steps_of))]
pub(crate) fn steps_in(
    alloc: Global,
    words: Option<&[u8]>,
) -> Result<Option<(Bound<u64>, Bound<u64>, Items<End>)>, AllocError>
    ensures { IfOk result (λ steps. steps ≡ steps_of (words_left words.entry)) }
{
    let Some((lo, words)) = next_bound(words) else {
        return Ok(None)
    };
    let Some((hi, words)) = next_bound(words) else {
        return Ok(None)
    };
    let Some((letters, words)) = next_word(words) else {
        return Ok(None)
    };
    let Some(list) = ends_of_letters(alloc, letters)? else {
        return Ok(None)
    };
    Ok(at_line_end((lo, hi, Items::from(list)), words))
}

#[tactic(auto, unfolding(crate::specs::Grammar::write_of))]
fn write_in(
    alloc: Global,
    side: Side,
    words: Option<&[u8]>,
) -> Result<Option<Command<u64, u64>>, AllocError>
    ensures { IfOk result (λ command. command ≡ write_of side (words_left words.entry)) }
{
    let Some((lo, words)) = next_bound(words) else {
        return Ok(None)
    };
    let Some((hi, words)) = next_bound(words) else {
        return Ok(None)
    };
    let Some(list) = writes_in(alloc, words)? else {
        return Ok(None)
    };
    Ok(Some(Command::Write(side, lo, hi, Items::from(list))))
}

#[tactic(auto, unfolding(crate::specs::Grammar::extend_of))]
fn extend_in(
    alloc: Global,
    side: Side,
    words: Option<&[u8]>,
) -> Result<Option<Command<u64, u64>>, AllocError>
    ensures { IfOk result (λ command. command ≡ extend_of side (words_left words.entry)) }
{
    let Some(list) = pairs_in(alloc, words)? else {
        return Ok(None)
    };
    Ok(Some(Command::Extend(side, Items::from(list))))
}

// The ends that the letters of a word name.
fn ends_of_letters(alloc: Global, letters: &[u8]) -> Result<Option<Vec<End>>, AllocError>
    ensures { IfOk result (λ list. option_map vec_items list ≡ some_read end_of letters.now) }
{
    if letters.is_empty() {
        return Ok(None);
    }
    let mut list = Vec::with_capacity(alloc, letters.len())?;
    for letter in letters {
        let Some(end) = end_in(*letter) else {
            return Ok(None)
        };
        list.push(end)?;
    }
    Ok(Some(list))
}

// The writes of all words that are left.
fn writes_in(alloc: Global, words: Option<&[u8]>) -> Result<Option<Vec<(End, u64)>>, AllocError>
    ensures { IfOk result (λ list. option_map vec_items list ≡ some_read one_write_of (words_left words.entry)) }
{
    let mut list = Vec::new(alloc);
    let mut words = words;
    while let Some(line) = words {
        let (word, rest) = first_word(line);
        let Some(write) = one_write_in(word) else {
            return Ok(None)
        };
        list.push(write)?;
        words = rest;
    }
    if list.is_empty() {
        Ok(None)
    } else {
        Ok(Some(list))
    }
}

// The pairs of all words that are left.
fn pairs_in(alloc: Global, words: Option<&[u8]>) -> Result<Option<Vec<(u64, u64)>>, AllocError>
    ensures { IfOk result (λ list. option_map vec_items list ≡ some_pairs (words_left words.entry)) }
{
    if words.is_none() {
        return Ok(None);
    }
    let mut list = Vec::new(alloc);
    let mut words = words;
    while words.is_some() {
        let Some((pair, rest)) = next_pair(words) else {
            return Ok(None)
        };
        list.push(pair)?;
        words = rest;
    }
    Ok(Some(list))
}

pub(crate) fn is_line_end(words: Option<&[u8]>) -> bool
    ensures { result ≡ is_end (words_left words.entry) }
{
    words.is_none()
}

// What was read, if no word is left.
pub(crate) fn at_line_end<T: Drop>(read: T, words: Option<&[u8]>) -> Option<T>
    ensures { result ≡ whole_line read (words_left words.entry) }
{
    match words {
        None => Some(read),
        Some(_) => None,
    }
}

#[tactic(auto, unfolding(crate::specs::Grammar::number_at))]
pub(crate) fn next_number(words: Option<&[u8]>) -> Option<(u64, Option<&[u8]>)>
    ensures { option_map (λ x. (x.0, words_left x.1)) result ≡ number_at (words_left words.entry) }
{
    let (word, words) = next_word(words)?;
    let n = number_in(word)?;
    Some((n, words))
}

#[tactic(auto, unfolding(crate::specs::Grammar::pair_at))]
fn next_pair(words: Option<&[u8]>) -> Option<((u64, u64), Option<&[u8]>)>
    ensures { option_map (λ x. (x.0, words_left x.1)) result ≡ pair_at (words_left words.entry) }
{
    let (key, words) = next_number(words)?;
    let (value, words) = next_number(words)?;
    Some(((key, value), words))
}

#[tactic(auto, unfolding(crate::specs::Grammar::bound_at))]
fn next_bound(words: Option<&[u8]>) -> Option<(Bound<u64>, Option<&[u8]>)>
    ensures { option_map (λ x. (x.0, words_left x.1)) result ≡ bound_at (words_left words.entry) }
{
    let (word, words) = next_word(words)?;
    let bound = bound_in(word)?;
    Some((bound, words))
}

fn bound_in(word: &[u8]) -> Option<Bound<u64>>
    ensures { result ≡ bound_of word.now }
{
    match word {
        [b'*'] => Some(Bound::Unbounded),
        [b'=', digits @ ..] => Some(Bound::Included(number_in(digits)?)),
        [b'!', digits @ ..] => Some(Bound::Excluded(number_in(digits)?)),
        _ => None,
    }
}

fn one_write_in(word: &[u8]) -> Option<(End, u64)>
    ensures { result ≡ one_write_of word.now }
{
    match word {
        [letter, b'=', digits @ ..] => Some((end_in(*letter)?, number_in(digits)?)),
        _ => None,
    }
}

fn end_in(letter: u8) -> Option<End>
    ensures { result ≡ end_of letter }
{
    match letter {
        b'f' => Some(End::Front),
        b'b' => Some(End::Back),
        _ => None,
    }
}

// Whether a word is this text. Of most words the length tells that they are not.
#[inline(always)]
pub(crate) fn is_word(word: &[u8], text: &[u8]) -> bool
    ensures { result ≡ is_text word.now text.now }
{
    word.len() == text.len() && word == text
}

pub(crate) fn number_in(word: &[u8]) -> Option<u64>
    ensures { result ≡ number_of word.now }
{
    if !word.is_empty() && word.len() <= 20 && are_digits(word) {
        value_in(word)
    } else {
        None
    }
}

// The value of digits, if it is below 2^64.
fn value_in(digits: &[u8]) -> Option<u64>
    requires { IsTrue (list_all is_ascii_digit digits.now) }
    ensures { result ≡ if nat_lt (digits_value 10 digits.now) (2 ^ 64) then Some (digits_value 10 digits.now) else None }
{
    let mut n: u64 = 0;
    for digit in digits {
        let tens = n.checked_mul(10)?;
        n = tens.checked_add(u64::from(*digit - b'0'))?;
    }
    Some(n)
}

// The word before the first space, and what follows that space.
pub(crate) fn next_word(words: Option<&[u8]>) -> Option<(&[u8], Option<&[u8]>)>
    ensures { option_map (λ x. (x.0.now, words_left x.1)) result ≡ word_at (words_left words.entry) }
{
    let line = words?;
    Some(first_word(line))
}

pub(crate) fn first_word(line: &[u8]) -> (&[u8], Option<&[u8]>)
    ensures { words_of line.now ≡ result.0.now ∷ words_left result.1 }
{
    match space_in(line) {
        Some(end) => (&line[..end], Some(&line[end + 1..])),
        None => (line, None),
    }
}

fn space_in(line: &[u8]) -> Option<usize>
    ensures { result ≡ position (λ x. x == 32) line.now }
{
    line.iter().position(|b| *b == b' ')
}

fn are_digits(word: &[u8]) -> bool
    ensures { result ≡ list_all is_ascii_digit word.now }
{
    word.iter().all(|b| b.is_ascii_digit())
}
