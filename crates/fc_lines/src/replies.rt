//! Replies as text.
ghost use Rattle.std.specs.Prelude.{◌≡◌, ◌+◌, ◌*◌, ◌<◌, ◌≤◌, ◌++◌, OnOk, OnErr, MatchResult, codes, length, drop, vec_items, vec_len, vec_capacity};
ghost use Rattle.std.specs.List.{flat_map};
ghost use Rattle.std.specs.Fmt.{decimal};
ghost use Rattle.fc_lines.specs.Texts.{text_of, step_text, item_text, order_text, refusal_text, fault_text, IsBegun};
ghost use Rattle.fc_lines.specs.Room.{IsNoList};

use crate::command::Reply;
use fc_base::TryReserveError;
use std::alloc::AllocError;
use std::cmp::Ordering;

/// The most bytes that the line for a reply has which is no list, with its line feed, and that a fault line has.
pub const MAX_REPLY: usize = 101;

// The most digits that a number has.
const MAX_DIGITS: usize = 20;

/// Appends the line that is written for a reply.
///
/// # Errors
/// `AllocError` where the text has no room for the line and growing it was refused; it may then end in a beginning of the line. Room
/// for `MAX_REPLY` more bytes is enough for each reply that is no list.
#[tactic(auto, unfolding(crate::specs::Texts::text_of))]
pub fn write_reply(text: &mut Vec<u8>, reply: &Reply<u64, u64>) -> Result<(), AllocError>
    ensures written { OnOk result (text.new.items ≡ text.old.items ++ text_of reply.now) }
    ensures begun { OnErr result (IsBegun text.old.items (text_of reply.now) text.new.items) }
    ensures full { OnErr result (vec_capacity text.old < vec_len text.old + length (text_of reply.now)) }
    ensures room { vec_capacity text.old ≤ vec_capacity text.new }
    ensures short { OnErr result (IsNoList reply.now → vec_capacity text.old < vec_len text.old + 101) }
{
    match reply {
        Reply::Done => write_line(text, b"done", &[]),
        Reply::Flag(true) => write_line(text, b"true", &[]),
        Reply::Flag(false) => write_line(text, b"false", &[]),
        Reply::Key(None) | Reply::Value(None) | Reply::Pair(None) => write_line(text, b"none", &[]),
        Reply::Key(Some(n)) | Reply::Value(Some(n)) => write_line(text, b"some", &[Some(*n)]),
        Reply::Pair(Some((key, value))) => write_line(text, b"some", &[Some(*key), Some(*value)]),
        Reply::Both(first, second) => write_line(text, b"both", &[*first, *second]),
        Reply::Len(n) => write_between(text, b"", *n as u64, b"\n"),
        Reply::Pairs(steps) => write_steps(text, steps.as_slice()),
        Reply::Keys(steps) => write_line(text, b"list", steps.as_slice()),
        Reply::Order(order) => write_line(text, order_words(*order), &[]),
        Reply::BadRange => write_line(text, b"bad range", &[]),
        Reply::Refused(e) => write_line(text, refusal_words(*e), &[]),
        Reply::GivenBack(k, v, e) => write_line(text, refusal_words(*e), &[Some(*k), Some(*v)]),
        Reply::BothGivenBack(k, v, l, w, e) => {
            write_line(
                text,
                refusal_words(*e),
                &[Some(*k), Some(*v), Some(*l), Some(*w)],
            )
        }
        Reply::ItemGivenBack(key, e) => write_line(text, refusal_words(*e), &[Some(*key)]),
    }
}

fn order_words(order: Ordering) -> &'static [u8]
    ensures words { result.now ≡ order_text order }
    ensures short { length result.now ≤ 16 }
{
    match order {
        Ordering::Less => b"less",
        Ordering::Equal => b"equal",
        Ordering::Greater => b"greater",
    }
}

fn refusal_words(e: TryReserveError) -> &'static [u8]
    ensures words { result.now ≡ refusal_text e }
    ensures short { length result.now ≤ 16 }
{
    match e {
        TryReserveError::AllocError => b"refused alloc",
        TryReserveError::CapacityOverflow => b"refused overflow",
    }
}

// Appends a line of these words and items.
fn write_line(text: &mut Vec<u8>, words: &[u8], items: &[Option<u64>]) -> Result<(), AllocError>
    ensures written { OnOk result (text.new.items ≡ text.old.items ++ words.now ++ flat_map item_text items.now ++ codes "\n") }
    ensures begun { OnErr result (IsBegun text.old.items (words.now ++ flat_map item_text items.now ++ codes "\n") text.new.items) }
    ensures full { OnErr result (vec_capacity text.old < vec_len text.old + length (words.now ++ flat_map item_text items.now ++ codes "\n")) }
    ensures short { OnErr result (vec_capacity text.old < vec_len text.old + length words.now + 21 * length items.now + 1) }
    ensures room { vec_capacity text.old ≤ vec_capacity text.new }
{
    text.extend_from_slice(words)?;
    write_items(text, items)?;
    text.extend_from_slice(b"\n")
}

// Appends each item, or what stands for a missing one.
fn write_items(text: &mut Vec<u8>, items: &[Option<u64>]) -> Result<(), AllocError>
    ensures written { OnOk result (text.new.items ≡ text.old.items ++ flat_map item_text items.now) }
    ensures begun { OnErr result (IsBegun text.old.items (flat_map item_text items.now) text.new.items) }
    ensures full { OnErr result (vec_capacity text.old < vec_len text.old + length (flat_map item_text items.now)) }
    ensures short { MatchResult result (λ _. length (flat_map item_text items.now) ≤ 21 * length items.now) (λ _. vec_capacity text.old < vec_len text.old + 21 * length items.now) }
    ensures room { vec_capacity text.old ≤ vec_capacity text.new }
{
    for item in items {
        write_item(text, *item)?;
    }
    Ok(())
}

fn write_item(text: &mut Vec<u8>, item: Option<u64>) -> Result<(), AllocError>
    ensures written { OnOk result (text.new.items ≡ text.old.items ++ item_text item) }
    ensures begun { OnErr result (IsBegun text.old.items (item_text item) text.new.items) }
    ensures full { OnErr result (vec_capacity text.old < vec_len text.old + length (item_text item)) }
    ensures short { length (item_text item) ≤ 21 }
    ensures room { vec_capacity text.old ≤ vec_capacity text.new }
{
    match item {
        Some(n) => write_number(text, b" ", n),
        None => text.extend_from_slice(b" -"),
    }
}

// Appends what each step of a walk gave, as a line.
fn write_steps(text: &mut Vec<u8>, steps: &[Option<(u64, u64)>]) -> Result<(), AllocError>
    ensures written { OnOk result (text.new.items ≡ text.old.items ++ codes "list" ++ flat_map step_text steps.now ++ codes "\n") }
    ensures begun { OnErr result (IsBegun text.old.items (codes "list" ++ flat_map step_text steps.now ++ codes "\n") text.new.items) }
    ensures full { OnErr result (vec_capacity text.old < vec_len text.old + length (codes "list" ++ flat_map step_text steps.now ++ codes "\n")) }
    ensures room { vec_capacity text.old ≤ vec_capacity text.new }
{
    text.extend_from_slice(b"list")?;
    for step in steps {
        write_step(text, *step)?;
    }
    text.extend_from_slice(b"\n")
}

fn write_step(text: &mut Vec<u8>, step: Option<(u64, u64)>) -> Result<(), AllocError>
    ensures written { OnOk result (text.new.items ≡ text.old.items ++ step_text step) }
    ensures begun { OnErr result (IsBegun text.old.items (step_text step) text.new.items) }
    ensures full { OnErr result (vec_capacity text.old < vec_len text.old + length (step_text step)) }
    ensures room { vec_capacity text.old ≤ vec_capacity text.new }
{
    match step {
        Some((key, value)) => {
            write_number(text, b" ", key)?;
            write_number(text, b":", value)
        }
        None => text.extend_from_slice(b" -"),
    }
}

// Appends words, a number and the words after it.
fn write_between(text: &mut Vec<u8>, before: &[u8], n: u64, after: &[u8]) -> Result<(), AllocError>
    ensures written { OnOk result (text.new.items ≡ text.old.items ++ (before.now ++ (decimal n ++ after.now))) }
    ensures begun { OnErr result (IsBegun text.old.items (before.now ++ (decimal n ++ after.now)) text.new.items) }
    ensures full { OnErr result (vec_capacity text.old < vec_len text.old + length (before.now ++ (decimal n ++ after.now))) }
    ensures short { length (decimal n) ≤ 20 }
    ensures room { vec_capacity text.old ≤ vec_capacity text.new }
{
    write_number(text, before, n)?;
    text.extend_from_slice(after)
}

// Appends words and a number after them.
fn write_number(text: &mut Vec<u8>, words: &[u8], n: u64) -> Result<(), AllocError>
    ensures written { OnOk result (text.new.items ≡ text.old.items ++ words.now ++ decimal n) }
    ensures begun { OnErr result (IsBegun text.old.items (words.now ++ decimal n) text.new.items) }
    ensures full { OnErr result (vec_capacity text.old < vec_len text.old + length (words.now ++ decimal n)) }
    ensures short { length (decimal n) ≤ 20 }
    ensures room { vec_capacity text.old ≤ vec_capacity text.new }
{
    text.extend_from_slice(words)?;
    let mut digits = [0; MAX_DIGITS];
    let start = write_digits(n, &mut digits);
    text.extend_from_slice(&digits[start..])
}

// Writes the digits of a number at the end of the array, and answers where they start.
fn write_digits(n: u64, digits: &mut [u8; MAX_DIGITS]) -> usize
    ensures start { result + length (decimal n) ≡ 20 }
    ensures written { drop result digits.new ≡ decimal n }
{
    let mut start = MAX_DIGITS;
    let mut left = n;
    while left >= 10 {
        start -= 1;
        digits[start] = b'0' + (left % 10) as u8;
        left /= 10;
    }
    start -= 1;
    digits[start] = b'0' + left as u8;
    start
}

/// Appends the line that is written for line `n`, which is not a command.
///
/// # Errors
/// `AllocError` where the text has no room for the line and growing it was refused; it may then end in a beginning of the line. Room
/// for `MAX_REPLY` more bytes is enough.
#[tactic(auto, unfolding(crate::specs::Texts::fault_text))]
pub fn write_fault(text: &mut Vec<u8>, n: u64) -> Result<(), AllocError>
    ensures written { OnOk result (text.new.items ≡ text.old.items ++ fault_text n) }
    ensures begun { OnErr result (IsBegun text.old.items (fault_text n) text.new.items) }
    ensures full { OnErr result (vec_capacity text.old < vec_len text.old + length (fault_text n)) }
    ensures short { OnErr result (vec_capacity text.old < vec_len text.old + 101) }
    ensures room { vec_capacity text.old ≤ vec_capacity text.new }
{
    write_between(text, b"line ", n, b": not a command\n")
}
