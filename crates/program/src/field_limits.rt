// The limits of an instruction's fields (the standard, "Who can bring a number about": 7, "a register, variable, lock, statement or zero
// field wrong").
ghost use Rattle.std.specs.Prelude.{◌≡◌, ℕ, ◌+◌, ◌≤◌, ◌<◌, get_or, length};
ghost use Rattle.program.specs.Instruction.{decode, decode_at, is_valid};
ghost use Rattle.program.specs.Limits.{instruction_size, lock_limit, variable_limit};
ghost use Rattle.program.specs.Internal.Rows.{limits_of, no_limits, number_of, row_of};

use crate::instruction::{ROW_COUNT, Row};

// What fields a, b and c of a row's instructions lie below.
#[derive(Clone, Copy)]
pub struct FieldLimits(pub u16, pub u16, pub u16);

// A register, a field that is 0, a part of n, and what an ATOMIC can state.
const REGISTER: u16 = 8;

const ZERO: u16 = 1;

const PART: u16 = 256;

const STATEMENT: u16 = 5;

// The limits of all rows, by the counts of the file.
#[derive(Clone, Copy)]
pub struct Limits {
    pub locks: usize,
    pub variables: usize,
    rows: [FieldLimits; ROW_COUNT],
    pub ghost by_counts: { rows ≡ limits_of locks variables },
}

impl Limits {
    // Of any counts that 16 bits hold.
    #[tactic(auto, unfolding(crate::specs::Internal::Rows::limits_of))]
    pub fn new(locks: usize, variables: usize) -> Limits
        requires { (locks < 65536) × (variables < 65536) }
        ensures { (result.locks ≡ locks) × (result.variables ≡ variables) }
    {
        let lock = locks as u16;
        let variable = variables as u16;
        // The rows in their order. No field lies below the first one's limits.
        let rows = [
            FieldLimits(0, 0, 0),
            FieldLimits(REGISTER, PART, PART),
            FieldLimits(REGISTER, REGISTER, ZERO),
            FieldLimits(REGISTER, REGISTER, REGISTER),
            FieldLimits(REGISTER, REGISTER, REGISTER),
            FieldLimits(REGISTER, REGISTER, REGISTER),
            FieldLimits(REGISTER, variable, ZERO),
            FieldLimits(REGISTER, variable, ZERO),
            FieldLimits(lock, ZERO, ZERO),
            FieldLimits(lock, ZERO, ZERO),
            FieldLimits(REGISTER, PART, PART),
            FieldLimits(ZERO, PART, PART),
            FieldLimits(REGISTER, PART, PART),
            FieldLimits(ZERO, PART, PART),
            FieldLimits(STATEMENT, PART, PART),
            FieldLimits(ZERO, ZERO, ZERO),
            FieldLimits(REGISTER, REGISTER, REGISTER),
            FieldLimits(REGISTER, REGISTER, REGISTER),
        ];
        Limits {
            locks,
            variables,
            rows,
        }
    }

    // The limits of a row.
    pub fn of_row(&self, row: Row) -> FieldLimits
        ensures { result ≡ get_or (limits_of self.now.locks self.now.variables) (number_of row) no_limits }
    {
        self.rows[row.number()]
    }

    // Whether the fields of an instruction of this row are right.
    pub fn allows(&self, row: Row, a: u8, b: u8, c: u8) -> bool
        ensures { (op : ℕ) → number_of row ≡ row_of op → result ≡ is_valid (decode self.now.locks self.now.variables op a b c) }
    {
        let limits = self.of_row(row);
        (u16::from(a) < limits.0) & (u16::from(b) < limits.1) & (u16::from(c) < limits.2)
    }

    // Whether the four bytes at an offset are an instruction.
    #[tactic(auto, unfolding(crate::specs::Instruction::decode_at))]
    pub fn allows_at(&self, s: &[u8], at: usize) -> bool
        requires { at + instruction_size ≤ length s.now }
        ensures { result ≡ is_valid (decode_at self.now.locks self.now.variables s.now at) }
    {
        self.allows(Row::of(s[at]), s[at + 1], s[at + 2], s[at + 3])
    }
}

// The limits of counts that a file can have: what reading makes. Whoever is lent a FileLimits has both bounds by its type, and need not show
// them to call `walk`.
#[derive(Clone, Copy)]
pub struct FileLimits {
    pub limits: Limits,
    pub ghost few_locks: { limits.locks ≤ lock_limit },
    pub ghost few_variables: { limits.variables ≤ variable_limit },
}

impl FileLimits {
    pub fn new(locks: usize, variables: usize) -> FileLimits
        requires { (locks ≤ lock_limit) × (variables ≤ variable_limit) }
        ensures { (result.limits.locks ≡ locks) × (result.limits.variables ≡ variables) }
    {
        let limits = Limits::new(locks, variables);
        FileLimits { limits }
    }
}
