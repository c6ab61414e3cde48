//! Which shapes use which, so that what follows for a shape from those that it uses is looked at when the last of them is known.
ghost use Rattle.std.specs.Prelude.{◌≡◌, ◌↔◌, ◌⊎◌, ◌<◌, ◌≤◌, ◌+◌, ◌-◌, ◌^◌, ◌++◌, ◌∷◌, [], length, get_or, set, replicate, min, IfOk, OnOk, OnErr, IsOk, IsTrue};
ghost use Rattle.smithy_model.specs.Users.{users_of, unknown_of};

use std::alloc::{AllocError, Global};
use std::mem;

/// For each shape, by its number, those that use it, and how many of those that it uses aren't known yet.
#[derive(Drop)]
pub struct Users {
    users: Vec<Vec<usize>>,
    counts: Vec<usize>,
}

impl Users {
    /// Of so many shapes, of which none uses another yet.
    pub fn none(alloc: Global, count: usize) -> Result<Users, AllocError>
        ensures users { IfOk result (λ users. users_of users ≡ replicate count []) }
        ensures unknown { IfOk result (λ users. unknown_of users ≡ replicate count 0) }
    {
        let mut users = Vec::with_capacity(alloc, count)?;
        for _ in 0..count {
            users.push(Vec::new(alloc))?;
        }
        Ok(Users {
            users,
            counts: Vec::from_elem(alloc, 0, count)?,
        })
    }

    /// Adds that the shape of the number `user` uses that of the number `part`, where both are there. Where one isn't, nothing changes
    /// and the answer is `Ok`. Nothing has changed after an error either.
    pub fn add(&mut self, part: usize, user: usize) -> Result<(), AllocError>
        ensures users { OnOk result (part < length (users_of self.old) → user < length (unknown_of self.old) → users_of self.new ≡ set (users_of self.old) part (get_or (users_of self.old) part [] ++ user ∷ [])) }
        ensures unknown { OnOk result (part < length (users_of self.old) → user < length (unknown_of self.old) → unknown_of self.new ≡ set (unknown_of self.old) user (min (get_or (unknown_of self.old) user 0 + 1) (2 ^ 64 - 1))) }
        ensures failed { OnErr result ((users_of self.new ≡ users_of self.old) × (unknown_of self.new ≡ unknown_of self.old)) }
        ensures missing { length (users_of self.old) ≤ part ⊎ length (unknown_of self.old) ≤ user → IsOk result × (users_of self.new ≡ users_of self.old) × (unknown_of self.new ≡ unknown_of self.old) }
    {
        let Some(users) = self.users.get_mut(part) else {
            return Ok(());
        };
        let Some(count) = self.counts.get_mut(user) else {
            return Ok(());
        };
        users.push(user)?;
        *count = count.saturating_add(1);
        Ok(())
    }

    /// Takes out the shapes that use this one.
    pub fn take(&mut self, alloc: Global, part: usize) -> Vec<usize>
        ensures taken { result.items ≡ get_or (users_of self.old) part [] }
        ensures users { users_of self.new ≡ set (users_of self.old) part [] }
        ensures unknown { unknown_of self.new ≡ unknown_of self.old }
    {
        match self.users.get_mut(part) {
            Some(users) => mem::replace(users, Vec::new(alloc)),
            None => Vec::new(alloc),
        }
    }

    /// Counts one of those that a shape uses as known, and tells whether none is left.
    pub fn is_last(&mut self, user: usize) -> bool
        ensures users { users_of self.new ≡ users_of self.old }
        ensures unknown { unknown_of self.new ≡ set (unknown_of self.old) user (get_or (unknown_of self.old) user 0 - 1) }
        ensures last { IsTrue result ↔ (user < length (unknown_of self.old)) × (get_or (unknown_of self.old) user 0 - 1 ≡ 0) }
    {
        let Some(count) = self.counts.get_mut(user) else {
            return false;
        };
        *count = count.saturating_sub(1);
        *count == 0
    }
}
