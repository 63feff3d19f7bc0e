// The state's bytes (the standard, "The step machine": "Run writes the end state").
ghost use Rattle.std.specs.Prelude.{◌≡◌, ℕ, ◌+◌, ◌*◌, ◌<◌, ◌≤◌, ◌^◌, length, get_or};
ghost use mathlib.Core.List.{flat_map};
ghost use Rattle.std.proofs.lemmas.List.Edits.{sets};
ghost use Rattle.program.specs.Limits.{thread_limit, register_count, word_size, thread_size, size_of_state};
ghost use Rattle.machine.specs.Internal.Kept.{state_in, nobody, threads_in, EightRegisters};
ghost use Rattle.machine.specs.State.{word_bytes, thread_bytes, state_bytes};

use crate::running::Running;
use crate::thread::Thread;
use program::layout::Layout;
use program::limits::{REGISTER_COUNT, THREAD_LIMIT, THREAD_SIZE, WORD_SIZE};

// Bytes, from an offset on.
fn write(out: &mut [u8], at: usize, bytes: &[u8])
    requires { at + length bytes.now ≤ length out.old }
    ensures { out.new ≡ sets out.old at bytes.now }
{
    out[at..at + bytes.len()].copy_from_slice(bytes);
}

// Numbers, four bytes each: variables, and registers.
fn write_words(out: &mut [u8], at: usize, words: &[u32])
    requires { at + word_size * length words.now ≤ length out.old }
    ensures { out.new ≡ sets out.old at (flat_map word_bytes words.now) }
{
    for (i, x) in words.iter().enumerate() {
        write(out, at + WORD_SIZE * i, &x.to_be_bytes());
    }
}

// Threads: of each its place, two bytes, then its registers.
fn write_threads(out: &mut [u8], at: usize, threads: &[Thread])
    requires { (at + thread_size * length threads.now ≤ length out.old) × (length threads.now ≤ thread_limit)
        × ((t : ℕ) → t < length threads.now → length (get_or threads.now t nobody).registers ≡ register_count) }
    ensures { out.new ≡ sets out.old at (flat_map thread_bytes threads.now) }
{
    for (i, th) in threads.iter().enumerate() {
        let start = at + THREAD_SIZE * i;
        write(out, start, &((th.place % 65536) as u16).to_be_bytes());
        write_words(out, start + 2, &th.registers);
    }
}

// The state of a program with this layout: variables, locks, threads. Compiled into each of the two callers.
#[tactic(auto, using(crate::proofs::StateBytes::registers_first))]
#[inline(always)]
fn write_parts(
    out: &mut [u8],
    l: Layout,
    variables: &[u32],
    locks: &[u8],
    threads: &[Thread; THREAD_LIMIT],
)
    requires room { size_of_state l.variables l.locks l.threads ≤ length out.old }
    requires in_bounds { (l.variables ≤ length variables.now) × (l.locks ≤ length locks.now) × (l.threads ≤ thread_limit)
        × EightRegisters threads.now }
    ensures { out.new ≡ sets out.old 0 (state_bytes (state_in l variables.now locks.now threads.now)) }
{
    let past_variables = WORD_SIZE * l.variables;
    let past_locks = past_variables + l.locks;
    write_words(out, 0, &variables[..l.variables]);
    write(out, past_variables, &locks[..l.locks]);
    write_threads(out, past_locks, &threads[..l.threads]);
}

// The threads with these places and registers.
fn threads_in(
    places: &[usize; THREAD_LIMIT],
    registers: &[[u32; REGISTER_COUNT]; THREAD_LIMIT],
) -> [Thread; THREAD_LIMIT]
    requires { length (threads_in places.now registers.now) ≡ thread_limit }
    ensures { result ≡ threads_in places.now registers.now }
{
    let fresh = Thread {
        place: 0,
        registers: [0; REGISTER_COUNT],
    };
    let mut threads = [fresh; THREAD_LIMIT];
    for t in 0..THREAD_LIMIT {
        threads[t] = Thread {
            place: places[t],
            registers: registers[t],
        };
    }
    threads
}

// The state by its parts: variables and locks in slices of any length that has what the layout counts, threads by places and registers.
pub fn write_state(
    out: &mut [u8],
    l: Layout,
    variables: &[u32],
    locks: &[u8],
    places: &[usize; THREAD_LIMIT],
    registers: &[[u32; REGISTER_COUNT]; THREAD_LIMIT],
)
    requires room { size_of_state l.variables l.locks l.threads ≤ length out.old }
    requires in_bounds { (l.variables ≤ length variables.now) × (l.locks ≤ length locks.now) × (l.threads ≤ thread_limit)
        × (length (threads_in places.now registers.now) ≡ thread_limit) × EightRegisters (threads_in places.now registers.now) }
    ensures { out.new ≡ sets out.old 0
        (state_bytes (state_in l variables.now locks.now (threads_in places.now registers.now))) }
{
    let threads = threads_in(places, registers);
    write_parts(out, l, variables, locks, &threads);
}

impl Running {
    // The state as a run keeps it, written by the same body.
    pub fn write_state(&self, l: Layout, out: &mut [u8])
        requires room { size_of_state l.variables l.locks l.threads ≤ length out.old }
        requires in_bounds { (l.variables ≤ length self.now.variables) × (l.locks ≤ length self.now.locks) × (l.threads ≤ thread_limit)
            × EightRegisters self.now.threads }
        ensures { out.new ≡ sets out.old 0
            (state_bytes (state_in l self.now.variables self.now.locks self.now.threads)) }
    {
        write_parts(out, l, &self.variables, &self.locks, &self.threads);
    }
}
