//! A walk that shows the item which it gives next.
ghost use Rattle.std.specs.Prelude.{◌≡◌, ⊤, ◌∷◌, [], drop, length, MatchOption};

use super::Iter;
use fc_base::Handle;
use std::alloc::{AllocError, Global};
use std::marker::Model;

// The items still to come of a walk, of which the first was taken from it and not yet given.
#[derive(Drop)]
pub(crate) struct Peeked<'a, T, A: Handle = Global> {
    first: Option<&'a T>,
    rest: Iter<'a, T, A>,
}

impl<'a, T, A: Handle> Model for Peeked<'a, T, A> {
    ghost use Rattle.std.specs.Prelude.{◌≡◌, ◌<◌, ◌+◌, ◌^◌, ◌++◌, List, [], IfNone, length, option_copied, option_to_list};

    ghost Value = { List T };

    ghost view = { λ w. option_to_list (option_copied w.first) ++ w.rest };

    ghost invariant = { λ w. IfNone w.first (w.rest ≡ []) × (length w.rest + 1 < 2 ^ 64) };
}

impl<'a, T, A: Handle> Peeked<'a, T, A> {
    pub(crate) fn of(walk: Iter<'a, T, A>) -> Peeked<'a, T, A>
        ensures { result ≡ walk.entry }
    {
        let mut rest = walk;
        // Shows that the items can be counted.
        let _len = rest.len();
        let first = rest.next();
        Peeked { first, rest }
    }

    // The item that comes next.
    pub(crate) fn first(&self) -> Option<&'a T>
        ensures { MatchOption result (self.now ≡ []) (λ x. self.now ≡ x.now ∷ drop 1 self.now) }
    {
        self.first
    }

    // Goes over the item that comes next.
    pub(crate) fn step(&mut self)
        ensures { self.new ≡ drop 1 self.old }
    {
        self.first = self.rest.next();
    }

    pub(crate) fn len(&self) -> usize
        ensures { result ≡ length self.now }
    {
        match self.first {
            Some(_) => self.rest.len() + 1,
            None => 0,
        }
    }
}

impl<'a, T, A: Handle> Clone for Peeked<'a, T, A> {
    ghost is_clone = { λ s r. r ≡ s };

    ghost is_infallible = { λ _. ⊤ };

    fn clone(&self) -> Result<Peeked<'a, T, A>, AllocError> {
        Ok(Peeked {
            first: self.first,
            rest: self.rest.clone()?,
        })
    }
}
