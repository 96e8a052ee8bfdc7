//! Reading a bounded source to its end.
ghost use Rattle.std.specs.Prelude.{◌≡◌, ℕ, ◌+◌, ◌<◌, ◌≤◌, ◌⊎◌, ⊤, Option, List, [], Ok, length, IfOk, IsOk, OnOk, IfErr};
ghost use Rattle.std.specs.declared.io.Error.{Error};
ghost use Rattle.std.specs.IoError.{error_kind};
ghost use Rattle.std.specs.Io.Take.{take_limit, take_inner};
ghost use Rattle.fc_vec.specs.Reading.{IsMoved, IsWhole};

use super::up_to::try_read_up_to;
use crate::vec::TryVec;
use fc_base::Handle;
use std::io::{self, ErrorKind, Read, Take};

/// A source with a limit on what may be read of it. Upstream: `TryRead`.
pub trait TryRead {
    // The bytes that the source gives from here on, with no regard to the limit, where it tells them.
    ghost source: { Self → Option (List ℕ) };
    // How many bytes may be read.
    ghost bound: { Self → ℕ };
    // By which errors a read of the source may fail, where it tells that.
    ghost fails: { Self → Error → Type 0 } = { λ _ _. ⊤ };

    /// `try_read_up_to` from the source with its limit, which falls by the bytes read. Upstream: `TryRead::try_read_to_end`.
    ///
    /// # Errors
    /// As `try_read_up_to`.
    fn try_read_to_end<A: Handle>(&mut self, buf: &mut TryVec<u8, A>) -> io::Result<usize>
        ensures moved { IsMoved (source self.old) (source self.new) buf.old.items buf.new.items (bound self.old) }
        ensures whole { IfOk result (IsWhole (source self.old) (source self.new) buf.old.items buf.new.items (bound self.old)) }
        ensures fallen { bound self.new + length buf.new.items ≡ bound self.old + length buf.old.items }
        ensures none { bound self.old ≡ 0 → (result ≡ Ok 0) × (source self.new ≡ source self.old) × (buf.new ≡ buf.old) }
        ensures error { IfErr result (λ e.
            ((buf.old.room < length buf.old.items + bound self.old) × (error_kind e ≡ ErrorKind.OutOfMemory) × (source self.new ≡ source self.old) × (buf.new ≡ buf.old))
            ⊎ ((length buf.old.items + bound self.old ≤ buf.new.room) × (length buf.new.items < length buf.old.items + bound self.old) × fails self.old e)) };

    /// The same into a new vector, which is dropped where that fails. Upstream: `TryRead::read_into_try_vec`.
    ///
    /// # Errors
    /// As `try_read_up_to`: a failed read's is the very error of the source. What was read before is lost, fewer bytes than the limit, by
    /// which the limit fell.
    fn read_into_try_vec<A: Handle>(&mut self, alloc: A) -> io::Result<TryVec<u8, A>>
    where
        Self: Sized,
        ensures whole { IfOk result (λ v. IsWhole (source self.old) (source self.new) [] v.items (bound self.old) (length v.items)) }
        ensures fallen { IfOk result (λ v. bound self.new + length v.items ≡ bound self.old) }
        ensures none { bound self.old ≡ 0 → IsOk result × IfOk result (λ v. v.items ≡ []) × (source self.new ≡ source self.old) }
        ensures error { IfErr result (λ e.
            ((error_kind e ≡ ErrorKind.OutOfMemory) × (source self.new ≡ source self.old) × (bound self.new ≡ bound self.old))
            ⊎ ((lost : List ℕ) × (length lost < bound self.old) × IsMoved (source self.old) (source self.new) [] lost (bound self.old) × (bound self.new + length lost ≡ bound self.old) × fails self.old e)) }
    {
        let mut buf = TryVec::new(alloc);
        self.try_read_to_end(&mut buf)?;
        Ok(buf)
    }
}

impl<R: Read> TryRead for Take<R> {
    ghost source = { λ t. R.remaining (take_inner t) };

    ghost bound = { λ t. take_limit t };

    fn try_read_to_end<A: Handle>(&mut self, buf: &mut TryVec<u8, A>) -> io::Result<usize> {
        let limit = self.limit();
        let before = buf.len();
        let answer = try_read_up_to(self.get_mut(), limit, buf);
        let read = (buf.len() - before) as u64;
        self.set_limit(limit - read);
        answer
    }
}
