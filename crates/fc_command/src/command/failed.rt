//! `ServeError` as an error of std's kind, with a text for a reader: so `?` hands it on where any error is taken.
use super::session::ServeError;
use std::error::Error;
use std::fmt;

impl fmt::Display for ServeError {
    fn fmt<W: fmt::Write>(&self, f: &mut fmt::Formatter<W>) -> fmt::Result {
        match self {
            ServeError::Memory(refused) => fmt::Display::fmt(refused, f),
            ServeError::Read => f.write_str("the source failed"),
            ServeError::Write => f.write_str("the writer failed"),
        }
    }
}

impl Error for ServeError {}
