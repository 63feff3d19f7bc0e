// The locks that are held at a place of a code, as its text says (the standard, "Lock discipline"): a bit for each.
ghost use Rattle.std.specs.Prelude.{◌≡◌, true, false, ◌<◌};
ghost use Rattle.program.specs.Limits.{lock_limit};
ghost use Rattle.judge.specs.LockSet.{empty, holds, with_lock, without_lock};

use program::limits::LOCK_LIMIT;

#[derive(Clone, Copy, PartialEq, Eq)]
pub struct LockSet {
    pub bits: u16,
}

impl LockSet {
    // The lock limit: each lock is below it. For callers that bound a lock's number, which is a number in file and definitions and no type.
    pub const LIMIT: usize = LOCK_LIMIT;

    // "Each thread starts with no locks held." (Named as the standard says it; a Default would say less.)
    #[tactic(auto, unfolding(crate::specs::LockSet::empty))]
    pub fn empty() -> LockSet
        ensures { result ≡ empty }
    {
        LockSet { bits: 0 }
    }

    // Whether a lock is in the set.
    #[tactic(auto, unfolding(crate::specs::LockSet::holds))]
    pub fn holds(self, k: u8) -> bool
        requires { k < lock_limit }
        ensures { result ≡ holds self k }
    {
        (self.bits >> k) % 2 == 1
    }

    // "TAKE adds its lock"
    #[tactic(auto, using(crate::proofs::LockSets::shifted, crate::proofs::LockSets::with_below), unfolding(crate::specs::LockSet::with_lock))]
    pub fn with(self, k: u8) -> LockSet
        requires { (k < lock_limit) × (holds self k ≡ false) }
        ensures { result ≡ with_lock self k }
    {
        LockSet {
            bits: self.bits + (1 << k),
        }
    }

    // "GIVE takes it out"
    #[tactic(auto, using(crate::proofs::LockSets::shifted, crate::proofs::LockSets::without_above), unfolding(crate::specs::LockSet::without_lock))]
    pub fn without(self, k: u8) -> LockSet
        requires { (k < lock_limit) × (holds self k ≡ true) }
        ensures { result ≡ without_lock self k }
    {
        LockSet {
            bits: self.bits - (1 << k),
        }
    }
}
