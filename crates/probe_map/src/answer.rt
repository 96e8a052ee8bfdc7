//! What a row is answered by.
use fc_base::TryReserveError;
use probe_rows::items::Item;
use std::io;

#[derive(Clone, Copy)]
pub(crate) enum Answer {
    Right,
    Text(&'static str),
    Number(u64),
    // A key's number and tag, and the value's number.
    Pair([u64; 3]),
    // A pair that was refused for want of memory, and came back.
    Back([u64; 3]),
    // How often a key and its value were copied, and how often they were dropped.
    Lives([u64; 4]),
}

impl Answer {
    pub(crate) fn is_right(&self) -> bool {
        matches!(self, Answer::Right)
    }
}

pub(crate) const DONE: Answer = Answer::Text("done");

pub(crate) const NONE: Answer = Answer::Text("none");

pub(crate) const UNKNOWN: Answer = Answer::Text("NOT A ROW");

pub(crate) const WRONG: Answer = Answer::Text("WRONG");

pub(crate) fn whether(right: bool) -> Answer {
    if right { Answer::Right } else { WRONG }
}

/// The number, if all is right.
pub(crate) fn number_if(right: bool, number: u64) -> Answer {
    if right { Answer::Number(number) } else { WRONG }
}

pub(crate) fn number_or_none(found: Option<u64>) -> Answer {
    match found {
        Some(number) => Answer::Number(number),
        None => NONE,
    }
}

pub(crate) fn done_or_refused(done: Result<(), TryReserveError>) -> Answer {
    match done {
        Ok(()) => DONE,
        Err(e) => refused(e),
    }
}

pub(crate) fn refused(e: TryReserveError) -> Answer {
    match e {
        TryReserveError::AllocError => Answer::Text("no memory"),
        TryReserveError::CapacityOverflow => Answer::Text("too large"),
    }
}

/// A refused insertion hands a pair back, which is dropped here.
pub(crate) fn handed_back(back: (Item<'_>, Item<'_>, TryReserveError)) -> Answer {
    let (key, value, e) = back;
    match e {
        TryReserveError::AllocError => Answer::Back([
            key.counted.number,
            key.tag,
            value.counted.number,
        ]),
        TryReserveError::CapacityOverflow => refused(e),
    }
}

pub(crate) fn show(rt: &impl Print, answer: Answer) -> io::Result<()> {
    match answer {
        Answer::Right => print!(rt; " right"),
        Answer::Text(text) => print!(rt; " {text}"),
        Answer::Number(number) => print!(rt; " {number}"),
        Answer::Pair(pair) => print!(rt; " {}/{}:{}", pair[0], pair[1], pair[2]),
        Answer::Back(pair) => print!(rt; " no memory {}/{}:{}", pair[0], pair[1], pair[2]),
        Answer::Lives(all) => {
            print!(rt;
                " copied {}/{} dropped {}/{}",
                all[0], all[1], all[2], all[3]
            )
        }
    }
}
