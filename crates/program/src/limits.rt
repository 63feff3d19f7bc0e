// Limits and sizes (the standard), under the names of specs/Limits.antt, where each stands with its sentence.

// The file.
pub const LOCK_LIMIT: usize = 16;

pub const THREAD_LIMIT: usize = 8;

pub const VARIABLE_SIZE: usize = 6;

pub const VARIABLE_LIMIT: usize = 64;

pub const RECORDS_START: usize = 5;

pub const INSTRUCTION_SIZE: usize = 4;

pub const INSTRUCTION_LIMIT: usize = 1024;

pub const VARIABLE_SECTION_LIMIT: usize = VARIABLE_SIZE * VARIABLE_LIMIT;

pub const CODE_SECTION_LIMIT: usize = INSTRUCTION_SIZE * INSTRUCTION_LIMIT;

pub const LARGEST_FILE: usize = RECORDS_START
    + VARIABLE_SECTION_LIMIT
    + THREAD_LIMIT * (2 + CODE_SECTION_LIMIT);

pub const REGISTER_COUNT: usize = 8;

pub const ENTRY_LIMIT: usize = 16;

// Atomicities.
pub const REPORT_LIMIT: usize = THREAD_LIMIT * (INSTRUCTION_LIMIT + 1);

// The step machine.
pub const WORD_SIZE: usize = 4;

pub const THREAD_SIZE: usize = 2 + WORD_SIZE * REGISTER_COUNT;

pub const LIST_LIMIT: usize = 65536;

// Line and bench.
pub const LINE_SIZE: usize = 48;

pub const BENCH_LIMIT: usize = LARGEST_FILE + 1;

// Bounds.
pub const CODE_LIMIT: usize = THREAD_LIMIT;

pub const PROGRAM_LIMIT: usize = THREAD_LIMIT * INSTRUCTION_LIMIT;

pub const LINE_LIMIT: usize = 4 + VARIABLE_LIMIT + THREAD_LIMIT + PROGRAM_LIMIT + THREAD_LIMIT;

pub const OUTPUT_LIMIT: usize = LINE_LIMIT * LINE_SIZE;
