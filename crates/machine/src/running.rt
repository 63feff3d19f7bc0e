// The state as a run keeps it, and what an instruction does to it (the standard, "The step machine").
ghost use Rattle.std.specs.Prelude.{◌≡◌, ◌<◌, ◌≤◌, get_or};
ghost use Rattle.program.specs.Choice.{choose};
ghost use Rattle.program.specs.View.{access_of};
ghost use Rattle.program.specs.Limits.{lock_limit, thread_limit, variable_limit};
ghost use Rattle.program.specs.Internal.Bounds.{largest_place};
ghost use Rattle.program.specs.Internal.Sound.{FieldsGood};
ghost use Rattle.machine.specs.Step.{waits, variables_after, locks_after, after};
ghost use Rattle.machine.specs.Internal.Kept.{nobody, move_thread};

use crate::moves::{Move, move_of};
use crate::thread::{Outcome, Thread, move_thread};
use program::instruction::Instruction;
use program::limits::{LOCK_LIMIT, THREAD_LIMIT, VARIABLE_LIMIT};

// In arrays of the largest size, of which the first elements count: as many as the program's layout says. There is no heap, and a length in
// each array would say the layout's count a second time. A lock is 0, or one more than the number of the thread that holds it: these are
// the state's bytes by the standard.
#[derive(Drop)]
pub struct Running {
    pub variables: [u32; VARIABLE_LIMIT],
    pub locks: [u8; LOCK_LIMIT],
    pub threads: [Thread; THREAD_LIMIT],
}

impl Running {
    // The instruction at a thread's place: it waits, or the thread moves. That its fields, the thread and the place are in bounds is a
    // fact of three numbers that are used as such: a type for each would be opened at once.
    pub fn move_by(&mut self, i: Instruction, t: u8) -> Outcome
        requires { FieldsGood lock_limit variable_limit i × (t < thread_limit)
            × ((get_or self.old.threads t nobody).place ≤ largest_place) }
        ensures value { result ≡ choose (waits (access_of i) self.old.locks) Outcome.Waiting Outcome.Moved }
        ensures variables_after { self.new.variables
            ≡ after result self.old.variables
            (variables_after (access_of i) (get_or self.old.threads t nobody).registers self.old.variables) }
        ensures locks_after { self.new.locks ≡ after result self.old.locks (locks_after (access_of i) t self.old.locks) }
        ensures threads_after { self.new.threads
            ≡ after result self.old.threads (move_thread i self.old.variables t self.old.threads) }
    {
        let at = t as usize;
        let m = move_of(i, &self.threads[at].registers, self.threads[at].place);
        let mut value: u32 = 0;
        match m {
            Move::Reads(_, v) => value = self.variables[v as usize],
            Move::Writes(v, x) => self.variables[v as usize] = x,
            Move::Takes(k) => {
                let n = k as usize;
                if self.locks[n] != 0 {
                    return Outcome::Waiting;
                }
                self.locks[n] = t + 1;
            }
            Move::Gives(k) => self.locks[k as usize] = 0,
            Move::Sets(_, _) | Move::Goes(_) | Move::Passes => {}
        }
        move_thread(&mut self.threads[at], m, value);
        Outcome::Moved
    }
}
