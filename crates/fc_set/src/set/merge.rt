//! Two walks side by side, from which the lesser item is taken, or both where they are equal.
ghost use Rattle.std.specs.Prelude.{◌≡◌, ⊤, ◌++◌, length, option_copied, option_to_list};
ghost use Rattle.fc_set.specs.Items.{AreAscending};
ghost use Rattle.fc_set.specs.Sides.{AreFirsts};

use super::peeked::Peeked;
use super::{Iter, order_of};
use fc_base::Handle;
use std::alloc::{AllocError, Global};
use std::marker::Model;

#[derive(Drop)]
pub(crate) struct Merge<'a, T: Ord, A: Handle = Global> {
    ours: Peeked<'a, T, A>,
    theirs: Peeked<'a, T, A>,
}

impl<'a, T: Ord, A: Handle> Model for Merge<'a, T, A> {
    ghost use Rattle.fc_set.specs.Items.{AreAscending};
    ghost use Rattle.fc_set.specs.Sides.{Sides};

    ghost Value = { Sides T };

    ghost view = { λ w. record { left = w.ours; right = w.theirs } };

    ghost invariant = { λ w. AreAscending T.cmp w.ours × AreAscending T.cmp w.theirs };
}

impl<'a, T: Ord, A: Handle> Merge<'a, T, A> {
    pub(crate) fn of(ours: Iter<'a, T, A>, theirs: Iter<'a, T, A>) -> Merge<'a, T, A>
        requires { AreAscending T.cmp ours × AreAscending T.cmp theirs }
        ensures { result ≡ record { left = ours.entry; right = theirs.entry } }
    {
        Merge {
            ours: Peeked::of(ours),
            theirs: Peeked::of(theirs),
        }
    }

    // Takes the lesser of the two items that come next, or both where they are equal. It is part of each caller's loop: by a call of its own it would answer
    // through memory, and take nearly twice the instructions.
    #[inline(always)]
    pub(crate) fn next(&mut self) -> (Option<&'a T>, Option<&'a T>)
        ensures ours { self.old.left ≡ option_to_list (option_copied result.0) ++ self.new.left }
        ensures theirs { self.old.right ≡ option_to_list (option_copied result.1) ++ self.new.right }
        ensures firsts { AreFirsts T.cmp (option_copied result.0) (option_copied result.1) self.new }
        ensures ascending { AreAscending T.cmp self.new.left × AreAscending T.cmp self.new.right }
    {
        let Some(ours) = self.ours.first() else {
            let theirs = self.theirs.first();
            self.theirs.step();
            return (None, theirs);
        };
        let Some(theirs) = self.theirs.first() else {
            self.ours.step();
            return (Some(ours), None);
        };
        let order = order_of(ours, theirs);
        if order.is_gt() {
            self.theirs.step();
            return (None, Some(theirs));
        }
        self.ours.step();
        if order.is_lt() {
            return (Some(ours), None);
        }
        self.theirs.step();
        (Some(ours), Some(theirs))
    }

    // How many items are still to come from each side.
    pub(crate) fn lens(&self) -> (usize, usize)
        ensures lens { result ≡ (length self.now.left, length self.now.right) }
        ensures ascending { AreAscending T.cmp self.now.left × AreAscending T.cmp self.now.right }
    {
        (self.ours.len(), self.theirs.len())
    }
}

impl<'a, T: Ord, A: Handle> Clone for Merge<'a, T, A> {
    ghost is_clone = { λ s r. r ≡ s };

    ghost is_infallible = { λ _. ⊤ };

    fn clone(&self) -> Result<Merge<'a, T, A>, AllocError> {
        Ok(Merge {
            ours: self.ours.clone()?,
            theirs: self.theirs.clone()?,
        })
    }
}
