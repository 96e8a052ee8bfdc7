//! Standard input and output that take turns: what was written goes out before the next read.
#![tactic(auto)]

use std::cell::RefCell;
use std::io::{self, ErrorKind, Read, Write};

/// A reader that first flushes the writer, so that whoever waits for replies before writing on gets them.
#[derive(Drop)]
pub struct Waiting<'a, R, W> {
    source: R,
    out: &'a RefCell<W>,
    output_failed: bool,
}

impl<'a, R, W> Waiting<'a, R, W> {
    pub fn new(source: R, out: &'a RefCell<W>) -> Self {
        Waiting {
            source,
            out,
            output_failed: false,
        }
    }

    /// Whether a read failed because the writer could not be flushed.
    pub fn output_failed(&self) -> bool {
        self.output_failed
    }
}

impl<R: Read, W: Write> Read for Waiting<'_, R, W> {
    fn read(&mut self, buf: &mut [u8]) -> io::Result<usize> {
        match Replies::new(self.out).flush() {
            Ok(()) => self.source.read(buf),
            Err(e) => {
                self.output_failed = true;
                Err(e)
            }
        }
    }
}

/// A writer that is shared with the reader.
#[derive(Drop)]
pub struct Replies<'a, W> {
    out: &'a RefCell<W>,
}

impl<'a, W> Replies<'a, W> {
    pub fn new(out: &'a RefCell<W>) -> Self {
        Replies { out }
    }
}

impl<W: Write> Write for Replies<'_, W> {
    fn write(&mut self, buf: &[u8]) -> io::Result<usize> {
        match self.out.try_borrow_mut() {
            Ok(mut out) => out.write(buf),
            Err(_) => Err(io::Error::from(ErrorKind::ResourceBusy)),
        }
    }

    fn flush(&mut self) -> io::Result<()> {
        match self.out.try_borrow_mut() {
            Ok(mut out) => out.flush(),
            Err(_) => Err(io::Error::from(ErrorKind::ResourceBusy)),
        }
    }
}
