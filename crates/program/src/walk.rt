// One pass over a thread's code section: the fields of its instructions and its nesting together (the standard, "Who can bring a number
// about": 7; 8 "after all 7s of that thread"), and the variables that it writes ("Rules").
ghost use Rattle.std.specs.Prelude.{◌≡◌, [], ℕ, ◌+◌, ◌*◌, ◌≤◌, ◌<◌, eqb, length, IfOk, Some};
ghost use Rattle.program.specs.Layout.{instructions_at, offset_from};
ghost use Rattle.program.specs.Choice.{choose};
ghost use Rattle.program.specs.Limits.{instruction_limit, instruction_size, variable_limit};
ghost use Rattle.program.specs.Nesting.{first_broken};
ghost use Rattle.program.specs.Internal.Marks.{marked_all, marked_at, write_row};
ghost use Rattle.program.specs.Internal.Rows.{number_of};
ghost use Rattle.program.specs.Internal.Walk.{first_invalid, refused_at, walked};

use crate::field_limits::Limits;
use crate::instruction::Row;
use crate::limits::{ENTRY_LIMIT, INSTRUCTION_SIZE, VARIABLE_LIMIT};
use crate::nesting::{Entry, change_at, distance, innermost_place};
use crate::offence::first_bad;
use crate::refusal::Refusal;
use crate::stack::Stack;

// Where nesting is broken at an offset: the n instructions after it come first if one of them is not valid.
fn broken(limits: &Limits, s: &[u8], offset: usize, first: usize, n: usize) -> Refusal
    requires { first + instruction_size * n ≤ length s.now }
    ensures { result ≡ refused_at (first_invalid limits.now.locks limits.now.variables s.now n first) offset }
{
    match first_bad(|at| limits.allows_at(s, at), first, INSTRUCTION_SIZE, n) {
        Some(at) => Refusal::Instruction(at),
        None => Refusal::Nesting(offset),
    }
}

// A WRITE of variable v by a code with this bit is marked in the table of writers.
fn mark(row: Row, v: u8, bit: u8, writers: &mut [u8; VARIABLE_LIMIT])
    requires { number_of row ≡ write_row → v < variable_limit }
    ensures { writers.new ≡ choose (eqb (number_of row) write_row) (marked_at bit v writers.old) writers.old }
{
    if row == Row::Write {
        let i = v as usize;
        writers[i] = writers[i] | bit;
    }
}

// The n instructions from an offset on. An opener or a closer changes the open entries; any other instruction has only to stand elsewhere
// than at the place that the innermost of them names. The WRITEs are marked with the code's bit. (The whole file is lent, and no part of it:
// a refusal tells an offset into the file.)
pub fn walk(
    limits: &Limits,
    s: &[u8],
    start: usize,
    n: usize,
    bit: u8,
    writers: &mut [u8; VARIABLE_LIMIT],
) -> Result<(), Refusal>
    requires { (limits.now.variables ≤ variable_limit) × (start + instruction_size * n ≤ length s.now) × (n ≤ instruction_limit) }
    ensures result { result ≡ walked (first_invalid limits.now.locks limits.now.variables s.now n start)
        (offset_from start (first_broken 0 (instructions_at limits.now.locks limits.now.variables s.now n start) [])) }
    ensures marked { IfOk result
        (λ _. writers.new ≡ marked_all bit (instructions_at limits.now.locks limits.now.variables s.now n start) writers.old) }
{
    let mut room = [Entry::Block(0); ENTRY_LIMIT];
    let mut entries = Stack::new(&mut room);
    // The place that the innermost entry names. Read from the stack at each instruction, reading was up to 1.2 times as slow. It is a number and
    // no Option: an Option would be one test more at each instruction. The code has no place n, so its end stands for none.
    let mut place = n;
    for p in 0..n {
        let at = start + INSTRUCTION_SIZE * p;
        if !limits.allows_at(s, at) {
            return Err(Refusal::Instruction(at));
        }
        let row = Row::of(s[at]);
        if row.is_nesting() {
            let Some(change) = change_at(
                p,
                place == p,
                row,
                distance(s[at + 2], s[at + 3]),
                &entries,
            ) else {
                return Err(broken(limits, s, at, at + INSTRUCTION_SIZE, n - p - 1));
            };
            change.make(&mut entries);
            place = innermost_place(&entries, n);
        } else {
            if place == p {
                return Err(broken(limits, s, at, at + INSTRUCTION_SIZE, n - p - 1));
            }
            mark(row, s[at + 2], bit, &mut *writers);
        }
    }
    match entries.top() {
        None => Ok(()),
        Some(_) => Err(Refusal::Nesting(start + INSTRUCTION_SIZE * n)),
    }
}
