//! Open sessions of many users: when each was last seen, by user and token.
ghost use Rattle.std.specs.Prelude.{◌≡◌, ◌<◌, [], None, length, replicate, slice_set, filter, nat_le, IfOk, IfNone, OnOk, OnErr};
ghost use Rattle.std.specs.Ordering.{nat_cmp};
ghost use Rattle.fallible_collections.specs.Words.{value_at, put, cut};
ghost use Rattle.example_sessions.specs.Users.{of_user};

use fallible_collections::btree::BTreeMap;
use fallible_collections::{TryReserveError, TryVec};
use fc_budget::Budget;
use std::alloc::Global;
use std::marker::Model;

/// A user's sessions: when each token was last seen. They take their memory from that user's budget.
#[derive(Drop)]
pub struct User<'a> {
    budget: &'a Budget<Global>,
    seen: BTreeMap<u64, u64, &'a Budget<Global>>,
}

impl<'a> Model for User<'a> {
    ghost use Rattle.std.specs.Prelude.{ℕ, List};
    ghost use Rattle.fallible_collections.specs.Words.{entries};

    ghost Value = { List (ℕ × ℕ) };

    ghost view = { λ u. entries u.seen };
}

/// The open sessions of some users, who are told by their numbers from 0 on. Whose budget is full can open no other session, and nobody
/// else notices.
#[derive(Drop)]
pub struct Sessions<'a> {
    users: TryVec<User<'a>>,
}

impl<'a> Model for Sessions<'a> {
    ghost use Rattle.std.specs.Prelude.{ℕ, List};

    ghost Value = { List (List (ℕ × ℕ)) };

    ghost view = { λ s. s.users.items };
}

impl<'a> Sessions<'a> {
    /// No sessions, of as many users as there are budgets. The table of users is taken from `alloc`.
    ///
    /// # Errors
    /// `AllocError` where memory for the table was refused.
    pub fn try_new(
        alloc: Global,
        budgets: &'a [Budget<Global>],
    ) -> Result<Sessions<'a>, TryReserveError>
        ensures { IfOk result (λ sessions. sessions ≡ replicate (length budgets.now) []) }
    {
        let mut users = TryVec::with_capacity(alloc, budgets.len())?;
        for budget in budgets {
            users.push(User {
                budget,
                seen: BTreeMap::new(budget),
            })?;
        }
        Ok(Sessions { users })
    }

    /// How many users there are: their numbers are below it.
    pub fn users(&self) -> usize
        ensures { result ≡ length self.now }
    {
        self.users.len()
    }

    /// Opens a session of a user, or uses one that is open, and answers when it was last seen before, `None` where it was not open.
    ///
    /// # Errors
    /// Where the session was not open and there was no room for it in the user's budget, or no memory behind that. The sessions of all
    /// users are then as they were.
    pub fn open(
        &mut self,
        user: usize,
        token: u64,
        now: u64,
    ) -> Result<Option<u64>, TryReserveError>
        requires { user < length self.old }
        ensures before { IfOk result (λ before. before ≡ value_at nat_cmp (of_user self.old user) token) }
        ensures opened { OnOk result (self.new ≡ slice_set self.old user (put nat_cmp (of_user self.old user) token now)) }
        ensures refused { OnErr result (value_at nat_cmp (of_user self.old user) token ≡ None) }
        ensures unchanged { OnErr result (self.new ≡ self.old) }
    {
        let before = self.users[user].seen.try_insert(token, now)?;
        Ok(before)
    }

    /// When a session of a user was last seen; `None` where it is not open.
    pub fn seen(&self, user: usize, token: u64) -> Option<u64>
        requires { user < length self.now }
        ensures { result ≡ value_at nat_cmp (of_user self.now user) token }
    {
        self.users[user].seen.get(&token).copied()
    }

    /// Closes a session of a user and answers when it was last seen; `None` where it was not open. It takes no memory, and what it gives back
    /// is that user's.
    pub fn close(&mut self, user: usize, token: u64) -> Option<u64>
        requires { user < length self.old }
        ensures seen { result ≡ value_at nat_cmp (of_user self.old user) token }
        ensures closed { self.new ≡ slice_set self.old user (cut nat_cmp (of_user self.old user) token) }
        ensures unchanged { IfNone result (self.new ≡ self.old) }
    {
        self.users[user].seen.remove(&token)
    }

    /// Closes the sessions of a user that were last seen before this time. It takes no memory.
    pub fn expire(&mut self, user: usize, time: u64)
        requires { user < length self.old }
        ensures { self.new ≡ slice_set self.old user (filter (λ session. nat_le time session.1) (of_user self.old user)) }
    {
        self.users[user].seen.retain(|_token, then| *then >= time);
    }

    /// How many sessions of a user are open.
    pub fn count(&self, user: usize) -> usize
        requires { user < length self.now }
        ensures { result ≡ length (of_user self.now user) }
    {
        self.users[user].seen.len()
    }

    /// The budget that a user's sessions stand in.
    pub fn budget(&self, user: usize) -> &'a Budget<Global>
        requires { user < length self.now }
    {
        self.users[user].budget
    }
}
