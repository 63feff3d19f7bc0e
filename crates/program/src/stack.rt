// A stack with room for as many items as entries can be open at once (the standard, "The file": "a 17th entry opens"). There is no heap, so
// it stands in an array of that size that is lent to it: one that held the array kept its depth in memory, and reading was 1.3 times as slow.
// Its callers see the list of the items, the top one first.
ghost use Rattle.std.specs.Prelude.{◌≡◌, List, [], ◌∷◌, ◌<◌, ◌≤◌, length, ltb, reverse, take, drop};
ghost use Rattle.std.specs.List.{slice_get};
ghost use Rattle.program.specs.Limits.{entry_limit};

use crate::limits::ENTRY_LIMIT;
use std::marker::Model;

#[derive(Drop)]
pub struct Stack<'a, T> {
    items: &'a mut [T],
    depth: usize,
}

impl<'a, T> Model for Stack<'a, T> {
    ghost Value = { List T };

    ghost view = { λ s. reverse (take s.depth s.items.now) };

    ghost invariant = { λ s. (s.depth ≤ entry_limit) × (length s.items.now ≡ entry_limit) };
}

impl<'a, T: Copy> Stack<'a, T> {
    // The empty stack: what stands in the array is never seen.
    pub fn new(items: &'a mut [T; ENTRY_LIMIT]) -> Self
        ensures { result ≡ [] }
    {
        Stack { items, depth: 0 }
    }

    pub fn has_room(&self) -> bool
        ensures { result ≡ ltb (length self.now) entry_limit }
    {
        self.depth < ENTRY_LIMIT
    }

    pub fn top(&self) -> Option<T>
        ensures { result ≡ slice_get self.now 0 }
    {
        if self.depth == 0 {
            return None;
        }
        Some(self.items[self.depth - 1])
    }

    pub fn push(&mut self, x: T)
        requires { length self.old < entry_limit }
        ensures { self.new ≡ x ∷ self.old }
    {
        self.items[self.depth] = x;
        self.depth += 1;
    }

    #[tactic(auto, using(crate::proofs::TopFirst::below_top))]
    pub fn pop(&mut self)
        requires { 0 < length self.old }
        ensures { self.new ≡ drop 1 self.old }
    {
        self.depth -= 1;
    }

    pub fn replace_top(&mut self, x: T)
        requires { 0 < length self.old }
        ensures { self.new ≡ x ∷ drop 1 self.old }
    {
        self.items[self.depth - 1] = x;
    }
}
