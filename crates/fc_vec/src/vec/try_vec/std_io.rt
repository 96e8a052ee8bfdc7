//! A vector of bytes as a writer.
ghost use Rattle.std.specs.Prelude.{◌≡◌, ◌+◌, ◌<◌, ◌≤◌, ◌++◌, [], Some, length, IfOk, OnOk, IfErr, IsOk};
ghost use Rattle.std.specs.Io.{WritesAtMost};
ghost use Rattle.std.specs.Io.KnownBytes.{WriteAppends, Keeps};
ghost use Rattle.std.specs.IoError.{error_kind};

use super::super::fallible_copy_vec::FallibleCopyVec;
use super::TryVec;
use fc_base::Handle;
use std::io::{self, ErrorKind, Write};

/// What is written stands after the bytes that are there. Upstream: `Write` for `TryVec<u8>`, in `vec::std_io`.
impl<A: Handle> Write for TryVec<u8, A> {
    ghost contents = { λ v. Some v.items };

    /// Puts all the bytes after the own ones, and answers how many these are. Where they fit into the room that is there, as
    /// no bytes do, that is `Ok` and takes no memory.
    ///
    /// # Errors
    /// The room was refused, which has the kind `OutOfMemory`. The vector is then as before.
    fn write(&mut self, buf: &[u8]) -> io::Result<usize>
        ensures bound { WritesAtMost result buf.now }
        ensures bytes { WriteAppends (Some self.old.items) (Some self.new.items) result buf.now }
        ensures count { IfOk result (λ n. n ≡ length buf.now) }
        ensures written { OnOk result (self.new.items ≡ self.old.items ++ buf.now) }
        ensures kept { self.old.room ≤ self.new.room }
        ensures none { buf.now ≡ [] → IsOk result }
        ensures fits { length self.old.items + length buf.now ≤ self.old.room → IsOk result }
        ensures error { IfErr result (λ e. (self.old.room < length self.old.items + length buf.now) × (error_kind e ≡ ErrorKind.OutOfMemory) × (self.new ≡ self.old)) }
    {
        match self.inner.try_extend_from_slice(buf) {
            Ok(()) => Ok(buf.len()),
            Err(_) => Err(io::Error::from(ErrorKind::OutOfMemory)),
        }
    }

    /// Nothing is kept back, so there is nothing to do.
    fn flush(&mut self) -> io::Result<()>
        ensures bytes { Keeps (Some self.old.items) (Some self.new.items) }
        ensures ok { IsOk result }
        ensures unchanged { self.new ≡ self.old }
    {
        Ok(())
    }
}
