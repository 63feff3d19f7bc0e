// A decoded instruction (the standard, "The file": the table of op codes).
ghost use Rattle.std.specs.Prelude.{◌≡◌, true, ℕ, ◌+◌, ◌/◌, ◌%◌, ◌^◌, ◌≤◌, ◌<◌, length, ltb, eqb};
ghost use Rattle.program.specs.Choice.{choose};
ghost use Rattle.program.specs.Instruction.{decode_at, decoded_instruction};
ghost use Rattle.program.specs.Instruction as Table;
ghost use Rattle.program.specs.Limits.{instruction_size};
ghost use Rattle.program.specs.Internal.Rows.{instruction_in, is_nesting, nesting_rows, number_of, row_count, row_of};
ghost use Rattle.program.specs.Internal.Seen.{RegistersGood};

use crate::op_codes::{IN_ORDER, ROWS};

#[derive(Clone, Copy)]
pub enum Instruction {
    Set(u8, u16),
    Copy(u8, u8),
    Add(u8, u8, u8),
    Sub(u8, u8, u8),
    Less(u8, u8, u8),
    Read(u8, u8),
    Write(u8, u8),
    Take(u8),
    Give(u8),
    If(u8, u16),
    Else(u16),
    While(u8, u16),
    Again(u16),
    // With what it states: the byte of the file, which is a report byte, or 0 for nothing. The definitions speak of this number.
    Atomic(u8, u16),
    End,
    Mulh(u8, u8, u8),
    Lesss(u8, u8, u8),
}

// A row of the standard's table of op codes, by the instruction that it is of, or none: a byte that is no op code.
#[derive(Clone, Copy, PartialEq, Eq)]
pub enum Row {
    Unknown,
    Set,
    Copy,
    Add,
    Sub,
    Less,
    Read,
    Write,
    Take,
    Give,
    If,
    Else,
    While,
    Again,
    Atomic,
    End,
    Mulh,
    Lesss,
}

// How many there are.
pub const ROW_COUNT: usize = 18;

impl Row {
    // The row of an op code.
    pub fn of(op: u8) -> Row
        ensures { number_of result ≡ row_of op }
    {
        ROWS[op as usize]
    }

    // The row with a number; one that no row has stands for no op code.
    pub fn numbered(n: u8) -> Row
        ensures { number_of result ≡ choose (ltb n row_count) n 0 }
    {
        if ROW_COUNT <= n as usize {
            return Row::Unknown;
        }
        IN_ORDER[n as usize]
    }

    // Its number.
    pub fn number(self) -> usize
        ensures value { result ≡ number_of self }
        ensures upper_bound { result < row_count }
    {
        self as usize
    }

    // Whether it is an opener's or a closer's.
    #[tactic(auto, unfolding(crate::specs::View::form_of))]
    pub fn is_nesting(self) -> bool
        ensures { result ≡ is_nesting self }
    {
        matches!(
            self,
            Row::If | Row::Else | Row::While | Row::Again | Row::Atomic | Row::End
        )
    }

    // The instruction that has fields a, b and c, three parameters as `decode` has them; n is b times 256 plus c.
    pub fn instruction(self, a: u8, b: u8, c: u8) -> Instruction
        ensures { result ≡ instruction_in self a b c }
    {
        let n = u16::from_be_bytes([b, c]);
        match self {
            Row::Set => Instruction::Set(a, n),
            Row::Copy => Instruction::Copy(a, b),
            Row::Add => Instruction::Add(a, b, c),
            Row::Sub => Instruction::Sub(a, b, c),
            Row::Less => Instruction::Less(a, b, c),
            Row::Read => Instruction::Read(a, b),
            Row::Write => Instruction::Write(a, b),
            Row::Take => Instruction::Take(a),
            Row::Give => Instruction::Give(a),
            Row::If => Instruction::If(a, n),
            Row::Else => Instruction::Else(n),
            Row::While => Instruction::While(a, n),
            Row::Again => Instruction::Again(n),
            Row::Atomic => Instruction::Atomic(a, n),
            Row::Mulh => Instruction::Mulh(a, b, c),
            Row::Lesss => Instruction::Lesss(a, b, c),
            Row::End | Row::Unknown => Instruction::End,
        }
    }
}

// The numbers of the openers' and the closers' rows, a bit each.
const NESTING_ROWS: u32 = 0xFC00;

// Whether the row with a number is an opener's or a closer's.
pub fn is_nesting(row: u8) -> bool
    requires { row < 32 }
    ensures { result ≡ eqb (nesting_rows / 2 ^ row % 2) 1 }
{
    (NESTING_ROWS >> row) % 2 == 1
}

// The instruction of the row with a number, where its fields are right.
pub fn instruction_of(row: u8, a: u8, b: u8, c: u8) -> Instruction
    ensures { (locks variables op : ℕ) → row ≡ row_of op → Table.is_valid (Table.decode locks variables op a b c) ≡ true
        → (result ≡ decoded_instruction (Table.decode locks variables op a b c)) × RegistersGood result }
{
    Row::numbered(row).instruction(a, b, c)
}

// The instruction of the four bytes at an offset, where they are valid.
pub fn instruction_at(s: &[u8], at: usize) -> Instruction
    requires { at + instruction_size ≤ length s.now }
    ensures { (locks variables : ℕ) → Table.is_valid (decode_at locks variables s.now at) ≡ true
        → (result ≡ decoded_instruction (decode_at locks variables s.now at)) × RegistersGood result }
{
    Row::of(s[at]).instruction(s[at + 1], s[at + 2], s[at + 3])
}
