// What an instruction does where it moves its thread (the standard, "The step machine"): the one `match` on instructions of this crate.
ghost use Rattle.std.specs.Prelude.{◌≡◌, ◌+◌, ◌-◌, ◌%◌, ◌^◌, ◌<◌, ◌≤◌, [], length, ◌==◌, nat_lt, slice_index_or};
ghost use Rattle.program.specs.Choice.{choose};
ghost use Rattle.program.specs.Limits.{lock_limit, variable_limit};
ghost use Rattle.program.specs.Internal.Bounds.{largest_place};
ghost use Rattle.program.specs.Internal.Sound.{FieldsGood};
ghost use Rattle.machine.specs.Internal.Effect.{Does};

use crate::signed::{lesss, mulh};
use program::instruction::Instruction;
use program::limits::REGISTER_COUNT;

// All but Goes go to the next place.
#[derive(Clone, Copy, PartialEq, Eq)]
pub enum Move {
    // A value into a register.
    Sets(u8, u32),
    // Into a register the value of a variable.
    Reads(u8, u8),
    // Into a variable this value.
    Writes(u8, u32),
    // A lock.
    Takes(u8),
    Gives(u8),
    // To another place than the next.
    Goes(usize),
    // Nothing but to the next place.
    Passes,
}

// LESS: 1 if the first is below the second, else 0.
fn less(b: u32, c: u32) -> u32
    ensures { result ≡ choose (nat_lt b c) 1 0 }
{
    u32::from(b < c)
}

// Where IF and WHILE go: the next place if the register is not 0, else one past the named place.
fn branch(x: u32, n: u16, place: usize) -> Move
    requires { place ≤ largest_place }
    ensures { result ≡ choose (x == 0) (Move.Goes (place + n + 1)) Move.Passes }
{
    if x == 0 {
        return Move::Goes(place + usize::from(n) + 1);
    }
    Move::Passes
}

// What an instruction does at a place, with these registers. AGAIN goes back by its distance, to its WHILE: nested code never comes to the 0
// at which the subtraction stops.
#[tactic(auto, unfolding(crate::specs::Internal::Effect::Does, program::specs::View::access_of, program::specs::View::form_of, crate::specs::Step::result_of, crate::specs::Step::place_after, crate::specs::Step::place_behind), using(crate::proofs::Effect::effect_of_lem, crate::proofs::Effect::does_branch))]
pub fn move_of(i: Instruction, r: &[u32; REGISTER_COUNT], place: usize) -> Move
    requires { FieldsGood lock_limit variable_limit i × (place ≤ largest_place) }
    ensures { Does i r.now place result }
{
    match i {
        Instruction::Set(a, n) => Move::Sets(a, u32::from(n)),
        Instruction::Copy(a, b) => Move::Sets(a, r[b as usize]),
        Instruction::Add(a, b, c) => Move::Sets(a, r[b as usize].wrapping_add(r[c as usize])),
        Instruction::Sub(a, b, c) => Move::Sets(a, r[b as usize].wrapping_sub(r[c as usize])),
        Instruction::Less(a, b, c) => Move::Sets(a, less(r[b as usize], r[c as usize])),
        Instruction::Read(a, v) => Move::Reads(a, v),
        Instruction::Write(a, v) => Move::Writes(v, r[a as usize]),
        Instruction::Take(k) => Move::Takes(k),
        Instruction::Give(k) => Move::Gives(k),
        Instruction::If(a, n) => branch(r[a as usize], n, place),
        Instruction::Else(n) => Move::Goes(place + usize::from(n)),
        Instruction::While(a, n) => branch(r[a as usize], n, place),
        Instruction::Again(n) => Move::Goes(place.saturating_sub(usize::from(n))),
        Instruction::Atomic(_, _) | Instruction::End => Move::Passes,
        Instruction::Mulh(a, b, c) => Move::Sets(a, mulh(r[b as usize], r[c as usize])),
        Instruction::Lesss(a, b, c) => Move::Sets(a, lesss(r[b as usize], r[c as usize])),
    }
}
