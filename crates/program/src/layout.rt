// Reading the whole file, front to back (the standard, "The file"; "Who can bring a number about": the sender's part). The first
// offence decides.
ghost use Rattle.std.specs.Prelude.{◌≡◌, ℕ, ◌+◌, ◌/◌, ◌≤◌, length, IfOk};
ghost use Rattle.program.specs.Field.{pair_at};
ghost use Rattle.program.specs.Layout.{variable_section, codes_at, code_section, code_sections, instructions_at, program_of, reading};
ghost use Rattle.program.specs.Layout as File;
ghost use Rattle.program.specs.Limits.{thread_limit, instruction_size, variable_limit};
ghost use Rattle.program.specs.Internal.Marks.{codes_in, marked_all, marked_codes};

use crate::cursor::{Cursor, byte_at, byte_field, pair_at, section};
use crate::field_limits::{FileLimits, Limits};
use crate::limits::{
    CODE_SECTION_LIMIT, INSTRUCTION_SIZE, LOCK_LIMIT, THREAD_LIMIT, VARIABLE_LIMIT,
    VARIABLE_SECTION_LIMIT, VARIABLE_SIZE,
};
use crate::refusal::Refusal;
use crate::variable::first_bad_record;
use crate::walk::walk;

// The counts of a sound file, by which every section is found.
#[derive(Clone, Copy, PartialEq, Eq)]
pub struct Layout {
    pub locks: usize,
    pub threads: usize,
    pub variables: usize,
    pub instructions: usize,
}

// How many instructions a code section has whose length field is at an offset.
pub fn code_count(s: &[u8], at: usize) -> usize
    requires { at + 2 ≤ length s.now }
    ensures { result ≡ pair_at s.now at / instruction_size }
{
    pair_at(s, at) / INSTRUCTION_SIZE
}

// The variable section. What it has in common with a code section is `section`; its records are tested otherwise.
#[tactic(auto, unfolding(crate::specs::Layout::variable_section), using(crate::proofs::ReadBack::section_value))]
fn variable_section(
    s: &[u8],
    c: Cursor,
    locks: usize,
    threads: usize,
) -> Result<(usize, Cursor), Refusal>
    ensures { result ≡ variable_section locks threads s.now c }
{
    let (n, first) = section(s, c, VARIABLE_SIZE, VARIABLE_SECTION_LIMIT)?;
    if let Some(d) = first_bad_record(s, first.at, n, locks, threads) {
        return Err(Refusal::Record(d));
    }
    let at = first.at + VARIABLE_SIZE * n;
    Ok((n, Cursor { at }))
}

// One thread's code section: all its instructions, then its nesting. The variables that it writes are marked with its bit. (What is read,
// the limits and the table that is written have three owners, and go together through these three functions alone: no struct.)
#[tactic(auto, unfolding(crate::specs::Layout::code_section), using(crate::proofs::ReadBack::section_value, crate::proofs::Walking::walked_then))]
fn code_section(
    limits: &Limits,
    s: &[u8],
    c: Cursor,
    bit: u8,
    writers: &mut [u8; VARIABLE_LIMIT],
) -> Result<(usize, Cursor), Refusal>
    requires { limits.now.variables ≤ variable_limit }
    ensures { (result ≡ code_section limits.now.locks limits.now.variables s.now c)
        × IfOk result (λ x. writers.new ≡ marked_all bit (instructions_at limits.now.locks limits.now.variables s.now x.0 (c.at + 2)) writers.old) }
{
    let (n, first) = section(s, c, INSTRUCTION_SIZE, CODE_SECTION_LIMIT)?;
    walk(limits, s, first.at, n, bit, &mut *writers)?;
    let at = first.at + INSTRUCTION_SIZE * n;
    Ok((n, Cursor { at }))
}

// The code sections of n threads: how many instructions they have together. Thread t's bit is 1 shifted by t.
#[tactic(auto, using(crate::proofs::CodeSections::section_by_section))]
fn code_sections(
    limits: &Limits,
    s: &[u8],
    c: Cursor,
    n: usize,
    writers: &mut [u8; VARIABLE_LIMIT],
) -> Result<(usize, Cursor), Refusal>
    requires { (limits.now.variables ≤ variable_limit) × (n ≤ thread_limit) }
    ensures { (result ≡ code_sections limits.now.locks limits.now.variables s.now n c)
        × IfOk result (λ x. writers.new ≡ marked_codes 0 (codes_at limits.now.locks limits.now.variables s.now n c.at) writers.old) }
{
    let mut here = c;
    let mut total: usize = 0;
    for t in 0..n {
        let (count, past) = code_section(limits, s, here, 1u8 << t, &mut *writers)?;
        here = past;
        total += count;
    }
    Ok((total, here))
}

// The whole file: three bytes, the variable section, a code section for each thread, and nothing left over.
#[tactic(auto, unfolding(crate::specs::Layout::fields), using(crate::proofs::ReadBack::variables_value, crate::proofs::ReadBack::codes_in_lem))]
fn fields(s: &[u8], writers: &mut [u8; VARIABLE_LIMIT]) -> Result<(usize, Cursor), Refusal>
    ensures { (result ≡ File.fields s.now)
        × IfOk result (λ x. writers.new ≡ marked_codes 0 (codes_in s.now) writers.old) }
{
    let (version, c) = byte_field(s, Cursor { at: 0 })?;
    if version != 1 {
        return Err(Refusal::Version(0));
    }
    let (locks, c) = byte_field(s, c)?;
    if LOCK_LIMIT < locks {
        return Err(Refusal::Count(1));
    }
    let (threads, c) = byte_field(s, c)?;
    if threads < 1 || THREAD_LIMIT < threads {
        return Err(Refusal::Count(2));
    }
    let (variables, c) = variable_section(s, c, locks, threads)?;
    let limits = FileLimits::new(locks, variables);
    let (instructions, c) = code_sections(&limits.limits, s, c, threads, &mut *writers)?;
    if c.at != s.len() {
        return Err(Refusal::LeftOver(c.at));
    }
    Ok((instructions, c))
}

// A file read front to back: sound, or the first offence. The writers of a sound file are marked in the table.
#[tactic(auto, unfolding(crate::specs::Layout::reading, crate::specs::Layout::program_of), using(crate::proofs::Sound::fields_sound))]
pub fn read(s: &[u8], writers: &mut [u8; VARIABLE_LIMIT]) -> Result<Layout, Refusal>
    ensures { (result ≡ reading s.now)
        × IfOk result (λ l. writers.new ≡ marked_codes 0 (program_of s.now l).codes writers.old) }
{
    let (instructions, _) = fields(s, &mut *writers)?;
    Ok(Layout {
        locks: byte_at(s, 1),
        threads: byte_at(s, 2),
        variables: pair_at(s, 3) / VARIABLE_SIZE,
        instructions,
    })
}
