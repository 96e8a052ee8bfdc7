//! Lines as commands on sets.
ghost use Rattle.std.specs.Prelude.{◌≡◌, ◌∷◌, [], IfOk, OnErr, vec_items};
ghost use Rattle.std.specs.Option.{option_map};
ghost use Rattle.fc_lines.specs.Lines.{words_left};
ghost use Rattle.fc_lines.specs.Room.{NamesList};
ghost use Rattle.fc_lines.specs.Grammar.{
  number_of,
  some_read,
  set_named,
  op_of,
  set_at,
  on_whole_set,
  on_item,
  with_item_of,
  plain_on_set_of,
  keep_of,
  walk_items_of,
  extend_items_of,
  on_set_of,
};

use crate::command::{Command, SetOp, Side};
use crate::items::Items;
use crate::lines::{
    at_line_end, first_word, is_line_end, is_word, next_number, next_word, number_in, steps_in,
};
use std::alloc::{AllocError, Global};

// The words after `keep` are an operation and a set.
#[tactic(auto, unfolding(crate::specs::Grammar::keep_of))]
pub(crate) fn keep_in(words: Option<&[u8]>) -> Option<Command<u64, u64>>
    ensures { result ≡ keep_of (words_left words.entry) }
{
    let (word, words) = next_word(words)?;
    let op = op_in(word)?;
    let (side, words) = next_set(words)?;
    at_line_end(Command::Keep(op, side), words)
}

// What a word and those after the set ask of it.
#[tactic(auto, unfolding(crate::specs::Grammar::on_set_of))]
pub(crate) fn on_set_in(
    alloc: Global,
    word: &[u8],
    side: Side,
    words: Option<&[u8]>,
) -> Result<Option<Command<u64, u64>>, AllocError>
    ensures command { IfOk result (λ command. command ≡ on_set_of word.entry.now side (words_left words.entry)) }
    ensures list { OnErr result (NamesList (word.entry.now ∷ [])) }
{
    match word {
        _ if is_word(word, b"walk") => walk_in(alloc, side, words),
        _ if is_word(word, b"extend") => extend_in(alloc, side, words),
        _ => Ok(plain_in(word, side, words)),
    }
}

// After the set is an item where the line goes on.
#[tactic(auto, unfolding(crate::specs::Grammar::plain_on_set_of))]
fn plain_in(word: &[u8], side: Side, words: Option<&[u8]>) -> Option<Command<u64, u64>>
    ensures { result ≡ plain_on_set_of word.entry.now side (words_left words.entry) }
{
    if is_line_end(words) {
        whole_in(word, side)
    } else {
        item_in(word, side, words)
    }
}

// After the set is an item.
#[tactic(auto, unfolding(crate::specs::Grammar::with_item_of))]
fn item_in(word: &[u8], side: Side, words: Option<&[u8]>) -> Option<Command<u64, u64>>
    ensures { result ≡ with_item_of word.entry.now side (words_left words.entry) }
{
    let (item, words) = next_number(words)?;
    at_line_end(on_item_in(word, side, item)?, words)
}

// The command that a word asks for on a set.
fn whole_in(word: &[u8], side: Side) -> Option<Command<u64, u64>>
    ensures { result ≡ on_whole_set word.entry.now side }
{
    match word {
        _ if is_word(word, b"len") => Some(Command::SetLen(side)),
        _ if is_word(word, b"clear") => Some(Command::SetClear(side)),
        _ if is_word(word, b"append") => Some(Command::SetAppend(side)),
        _ if is_word(word, b"copy") => Some(Command::SetClone(side)),
        _ if is_word(word, b"disjoint") => Some(Command::IsDisjoint(side)),
        _ if is_word(word, b"subset") => Some(Command::IsSubset(side)),
        _ if is_word(word, b"superset") => Some(Command::IsSuperset(side)),
        _ if is_word(word, b"cmp") => Some(Command::SetCmp(side)),
        _ => Some(Command::List(op_in(word)?, side)),
    }
}

// The command that a word asks for on a set and an item.
fn on_item_in(word: &[u8], side: Side, item: u64) -> Option<Command<u64, u64>>
    ensures { result ≡ on_item word.entry.now side item }
{
    match word {
        _ if is_word(word, b"add") => Some(Command::AddItem(side, item)),
        _ if is_word(word, b"replace") => Some(Command::ReplaceItem(side, item)),
        _ if is_word(word, b"take") => Some(Command::TakeItem(side, item)),
        _ if is_word(word, b"drop") => Some(Command::RemoveItem(side, item)),
        _ if is_word(word, b"in") => Some(Command::ContainsItem(side, item)),
        _ if is_word(word, b"find") => Some(Command::GetItem(side, item)),
        _ if is_word(word, b"split") => Some(Command::SetSplitOff(side, item)),
        _ => None,
    }
}

// The operation on two sets that a word names.
fn op_in(word: &[u8]) -> Option<SetOp>
    ensures { result ≡ op_of word.entry.now }
{
    match word {
        b"diff" => Some(SetOp::Difference),
        b"sym" => Some(SetOp::SymmetricDifference),
        b"inter" => Some(SetOp::Intersection),
        b"union" => Some(SetOp::Union),
        _ => None,
    }
}

#[tactic(auto, unfolding(crate::specs::Grammar::walk_items_of))]
fn walk_in(
    alloc: Global,
    side: Side,
    words: Option<&[u8]>,
) -> Result<Option<Command<u64, u64>>, AllocError>
    ensures { IfOk result (λ command. command ≡ walk_items_of side (words_left words.entry)) }
{
    let Some((lo, hi, ends)) = steps_in(alloc, words)? else {
        return Ok(None)
    };
    Ok(Some(Command::SetWalk(side, lo, hi, ends)))
}

#[tactic(auto, unfolding(crate::specs::Grammar::extend_items_of))]
fn extend_in(
    alloc: Global,
    side: Side,
    words: Option<&[u8]>,
) -> Result<Option<Command<u64, u64>>, AllocError>
    ensures { IfOk result (λ command. command ≡ extend_items_of side (words_left words.entry)) }
{
    let Some(list) = items_in(alloc, words)? else {
        return Ok(None)
    };
    Ok(Some(Command::SetExtend(side, Items::from(list))))
}

// The items of all words that are left.
fn items_in(alloc: Global, words: Option<&[u8]>) -> Result<Option<Vec<u64>>, AllocError>
    ensures { IfOk result (λ list. option_map vec_items list ≡ some_read number_of (words_left words.entry)) }
{
    let mut list = Vec::new(alloc);
    let mut words = words;
    while let Some(line) = words {
        let (word, rest) = first_word(line);
        let Some(item) = number_in(word) else {
            return Ok(None)
        };
        list.push(item)?;
        words = rest;
    }
    if list.is_empty() {
        Ok(None)
    } else {
        Ok(Some(list))
    }
}

#[tactic(auto, unfolding(crate::specs::Grammar::set_at))]
fn next_set(words: Option<&[u8]>) -> Option<(Side, Option<&[u8]>)>
    ensures { option_map (λ x. (x.0, words_left x.1)) result ≡ set_at (words_left words.entry) }
{
    let (word, words) = next_word(words)?;
    let side = set_named_in(word)?;
    Some((side, words))
}

fn set_named_in(word: &[u8]) -> Option<Side>
    ensures { result ≡ set_named word.entry.now }
{
    match word {
        b"s" => Some(Side::First),
        b"t" => Some(Side::Second),
        _ => None,
    }
}
