//! The words that a row is answered with.
use crate::item::Item;
use fc_base::TryReserveError;
use std::alloc::{AllocError, Global};
use std::fmt::Debug;

// The room for an answer, in bytes, which is taken once.
const ROOM: usize = 8192;

// An answer in the making. Where there is no room for a word, the answer tells so in place of all.
#[derive(Drop)]
pub(crate) struct Out {
    text: String,
    failed: bool,
    // Whether a call was refused, after which both sets have to be as they were.
    pub(crate) is_refused: bool,
}

impl Out {
    pub(crate) fn with_room(alloc: Global) -> Result<Out, AllocError> {
        Ok(Out {
            text: String::with_capacity(alloc, ROOM)?,
            failed: false,
            is_refused: false,
        })
    }

    pub(crate) fn clear(&mut self) {
        self.text.clear();
        self.failed = false;
        self.is_refused = false;
    }

    pub(crate) fn text(&self) -> &str {
        if self.failed {
            " no room"
        } else {
            self.text.as_str()
        }
    }

    pub(crate) fn has_failed(&self) -> bool {
        self.failed
    }

    fn note(&mut self, written: Result<(), AllocError>) {
        self.failed = self.failed || written.is_err();
    }

    // Puts a text at the end, with no space before it.
    pub(crate) fn put(&mut self, text: &str) {
        let written = self.text.push_str(text);
        self.note(written);
    }

    pub(crate) fn put_number(&mut self, number: u64) {
        let written = write!(self.text, "{number}");
        self.note(written);
    }

    pub(crate) fn word(&mut self, word: &str) {
        self.put(" ");
        self.put(word);
    }

    pub(crate) fn number(&mut self, number: u64) {
        self.put(" ");
        self.put_number(number);
    }

    pub(crate) fn debug<D: Debug>(&mut self, value: &D) {
        let written = write!(self.text, " {value:?}");
        self.note(written);
    }

    pub(crate) fn is(&mut self, answer: bool) {
        self.word(if answer { "yes" } else { "no" });
    }

    pub(crate) fn lent(&mut self, item: Option<&Item<'_>>) {
        match item {
            Some(item) => self.debug(item),
            None => self.word("none"),
        }
    }

    pub(crate) fn owned(&mut self, item: Option<Item<'_>>) {
        self.lent(item.as_ref());
    }

    pub(crate) fn inserted(&mut self, answer: Result<bool, (Item<'_>, TryReserveError)>) {
        match answer {
            Ok(new) => self.is(new),
            Err(back) => self.handed_back(back),
        }
    }

    pub(crate) fn done(&mut self, answer: Result<(), TryReserveError>) {
        match answer {
            Ok(()) => self.word("done"),
            Err(e) => self.refused(e),
        }
    }

    pub(crate) fn refused(&mut self, error: TryReserveError) {
        self.is_refused = true;
        self.stopped(error);
    }

    // A refusal that hands an item back, which is dropped here.
    pub(crate) fn handed_back(&mut self, back: (Item<'_>, TryReserveError)) {
        let (item, error) = back;
        self.refused(error);
        self.debug(&item);
    }

    // A refusal that leaves what was done before it.
    pub(crate) fn stopped(&mut self, error: TryReserveError) {
        self.word(match error {
            TryReserveError::AllocError => "refused",
            TryReserveError::CapacityOverflow => "overflow",
        });
    }

    // What a length is told to be: at least so many, and at most so many if that is known.
    pub(crate) fn hint(&mut self, hint: (usize, Option<usize>)) {
        let (least, most) = hint;
        self.number(least as u64);
        self.put("..");
        if let Some(most) = most {
            self.put_number(most as u64);
        }
    }
}
