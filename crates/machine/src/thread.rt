// A thread's part of the state, and what an entry of the list did (the standard, "The step machine").
ghost use Rattle.std.specs.Prelude.{◌≤◌};
ghost use Rattle.program.specs.Internal.Bounds.{largest_place};
ghost use Rattle.machine.specs.Internal.Effect.{Doing, MovedBy};

use crate::moves::Move;
use program::limits::REGISTER_COUNT;

#[derive(Clone, Copy)]
pub struct Thread {
    pub place: usize,
    pub registers: [u32; REGISTER_COUNT],
}

#[derive(Clone, Copy, PartialEq, Eq)]
pub enum Outcome {
    Moved,
    Waiting,
    Idle,
}

// A thread's own part of a Move: a thin function over a lent record, whose core by value is `move_of`. Only the register that the Move sets
// is stored: a store of all eight costs more than the rest of the move. `value` is what a READ finds, read where the variables are.
#[tactic(auto, unfolding(crate::specs::Internal::Effect::Does))]
pub fn move_thread(th: &mut Thread, m: Move, value: u32)
    requires { Doing m th.old × (th.old.place ≤ largest_place) }
    ensures { MovedBy m value th.old th.new }
{
    let mut next = th.place + 1;
    match m {
        Move::Sets(a, x) => th.registers[a as usize] = x,
        Move::Reads(a, _) => th.registers[a as usize] = value,
        Move::Goes(there) => next = there,
        Move::Writes(_, _) | Move::Takes(_) | Move::Gives(_) | Move::Passes => {}
    }
    th.place = next;
}

// The same for who has no record to lend: a copy is lent, and handed back.
pub fn moved_thread(th: Thread, m: Move, value: u32) -> Thread
    requires { Doing m th × (th.place ≤ largest_place) }
    ensures { MovedBy m value th result }
{
    let mut after = th;
    move_thread(&mut after, m, value);
    after
}

// The same, with the Move first: a thread after a Move, where a READ finds `value`.
pub fn thread_after(m: Move, value: u32, th: Thread) -> Thread
    requires { Doing m th × (th.place ≤ largest_place) }
    ensures { MovedBy m value th result }
{
    moved_thread(th, m, value)
}
