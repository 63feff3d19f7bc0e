// The standard, "The step machine": "otherwise the thread moves". The record of a thread is lent to the step machine (machine's
// move_thread), and shown once it is back.
ghost use Rattle.std.specs.Prelude.{◌≤◌};
ghost use Rattle.program.specs.Limits.{lock_limit, variable_limit};
ghost use Rattle.program.specs.Internal.Bounds.{largest_place};
ghost use Rattle.program.specs.Internal.Sound.{FieldsGood};

use crate::show;
use machine::moves::move_of;
use machine::thread::{Thread, move_thread};
use program::instruction::Instruction;
use std::io;

// A thread at place 6, with 3 in r0 and 5 in r1.
const STANDING: Thread = Thread {
    place: 6,
    registers: [3, 5, 0, 0, 0, 0, 0, 0],
};

// The thread after an instruction, where a READ finds `value`.
fn moved(rt: &impl Print, name: &str, i: Instruction, value: u32, th: Thread) -> io::Result<()>
    requires { FieldsGood lock_limit variable_limit i × (th.place ≤ largest_place) }
{
    let mut after = th;
    move_thread(&mut after, move_of(i, &th.registers, th.place), value);
    show::thread(rt, name, &after)
}

// A result goes into its register, and the thread to the next place: "SUB takes c from b", modulo 2^32.
#[tactic(auto, unfolding(program::specs::View::access_of))]
pub fn results(rt: &impl Print) -> io::Result<()> {
    moved(rt, "SUB r2 r1 r0: ", Instruction::Sub(2, 1, 0), 0, STANDING)?;
    moved(rt, "SUB r2 r0 r1: ", Instruction::Sub(2, 0, 1), 0, STANDING)?;
    moved(rt, "READ r7 v0: ", Instruction::Read(7, 0), 9, STANDING)
}

// A thread with -1 in r0.
const BELOW_ZERO: Thread = Thread {
    place: 0,
    registers: [0xFFFF_FFFF, 50, 49, 150, 0, 0, 0, 0],
};

// "It rounds to nearest, halves away from zero", and "LESSS gives 1 if the signed value of register b is below that of register c".
#[tactic(auto, unfolding(program::specs::View::access_of))]
pub fn signed(rt: &impl Print) -> io::Result<()> {
    moved(
        rt,
        "MULH r4 r3 r3: ",
        Instruction::Mulh(4, 3, 3),
        0,
        BELOW_ZERO,
    )?;
    moved(
        rt,
        "MULH r4 r0 r1: ",
        Instruction::Mulh(4, 0, 1),
        0,
        BELOW_ZERO,
    )?;
    moved(
        rt,
        "MULH r4 r0 r2: ",
        Instruction::Mulh(4, 0, 2),
        0,
        BELOW_ZERO,
    )?;
    moved(
        rt,
        "LESSS r4 r0 r1: ",
        Instruction::Lesss(4, 0, 1),
        0,
        BELOW_ZERO,
    )?;
    moved(
        rt,
        "LESS r4 r0 r1: ",
        Instruction::Less(4, 0, 1),
        0,
        BELOW_ZERO,
    )
}

// "IF and WHILE go to the next place if the register is not 0, else one past the named place. ELSE goes to its END. AGAIN goes to its
// WHILE. All others go to the next place."
#[tactic(auto, unfolding(program::specs::View::access_of))]
pub fn places(rt: &impl Print) -> io::Result<()> {
    moved(rt, "IF r0 4: ", Instruction::If(0, 4), 0, STANDING)?;
    moved(rt, "WHILE r2 4: ", Instruction::While(2, 4), 0, STANDING)?;
    moved(rt, "ELSE 4: ", Instruction::Else(4), 0, STANDING)?;
    moved(rt, "AGAIN 4: ", Instruction::Again(4), 0, STANDING)?;
    moved(rt, "GIVE k0: ", Instruction::Give(0), 0, STANDING)
}
