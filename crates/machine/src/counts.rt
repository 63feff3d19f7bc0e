// The counts of each thread (the standard, "The step machine": "the counts moved, waiting and idle of each of eight threads").
ghost use Rattle.std.specs.Prelude.{◌≡◌, ℕ, ◌+◌, ◌-◌, ◌<◌, ◌≤◌, length, slice_index};
ghost use Rattle.program.specs.Limits.{list_limit, thread_limit};
ghost use Rattle.machine.specs.Run.{counts_of, times_named};
ghost use Rattle.machine.specs.Internal.Tally.{tallied, Active, Tally, moved_after, waiting_after};

use crate::thread::{Outcome, Thread};
use program::limits::{CODE_LIMIT, THREAD_LIMIT};

// How many of a thread's entries moved, waited and were idle.
#[repr(C)]
#[derive(Clone, Copy, PartialEq, Eq, Default)]
pub struct Counts {
    pub moved: u64,
    pub waiting: u64,
    pub idle: u64,
}

// So many entries are counted at once: few enough for a byte.
const PART: usize = 192;

// How often part of a list names a thread: in a byte, so that the compiler compares many entries at once.
#[tactic(auto, unfolding(crate::specs::Run::times_named), using(crate::proofs::Names::names_next, crate::proofs::Names::test_byte))]
fn part_names(part: &[u8], t: u8) -> u8
    requires { length part.now ≤ 192 }
    ensures { result ≡ times_named t part.now }
{
    let mut n: u8 = 0;
    for &entry in part {
        n += u8::from(entry == t);
    }
    n
}

// How often a list names a thread.
fn times_named(list: &[u8], t: u8) -> usize
    ensures { result ≡ times_named t list.now }
{
    let (parts, rest) = list.as_chunks::<PART>();
    let mut n = usize::from(part_names(rest, t));
    for part in parts {
        n += usize::from(part_names(part, t));
    }
    n
}

// How many of a thread's entries were idle: those that are left of what the list names it. They are looked for only if it is at its end.
fn idle_of(list: &[u8], t: usize, active: usize, ended: bool) -> usize
    requires { (t < thread_limit) × Active list.now t active ended }
    ensures { result ≡ times_named t list.now - active }
{
    if ended {
        return times_named(list, t as u8) - active;
    }
    0
}

// A thread's counts. One list is counted for each of the threads, so that list and number are two parameters.
#[tactic(auto, using(crate::proofs::Names::names_at_most))]
fn thread_counts(list: &[u8], t: usize, moved: usize, waiting: u32, ended: bool) -> Counts
    requires { (t < thread_limit) × Active list.now t (moved + waiting) ended }
    ensures { result ≡ tallied list.now t moved waiting }
{
    let left = idle_of(list, t, moved + waiting as usize, ended);
    Counts {
        moved: moved as u64,
        waiting: waiting as u64,
        idle: left as u64,
    }
}

// The counts of all threads: how often each moved and waited is given, and where it is. (By array::from_fn a proof does not know what the
// closure lends at each call.)
#[tactic(auto, unfolding(crate::specs::Run::counts_of, crate::specs::Internal::Tally::Tally))]
pub fn counts_of(
    list: &[u8],
    counts: &[usize; CODE_LIMIT],
    threads: &[Thread; THREAD_LIMIT],
    tallies: &Tallies,
) -> [Counts; THREAD_LIMIT]
    requires { Tally list.now counts.now threads.now tallies.now.moved tallies.now.waiting }
    ensures { (t : ℕ) → t < thread_limit
        → counts_of result t ≡ tallied list.now t (slice_index tallies.now.moved t) (slice_index tallies.now.waiting t) }
{
    let mut all = [Counts::default(); THREAD_LIMIT];
    for t in 0..THREAD_LIMIT {
        let ended = threads[t].place == counts[t];
        all[t] = thread_counts(list, t, tallies.moved[t], tallies.waiting[t], ended);
    }
    all
}

// How often each thread moved and waited so far. The arrays have elements of two sizes: of one size the compiler would use one store for
// both, and be slower.
#[derive(Clone, Copy, Default)]
pub struct Tallies {
    pub moved: [usize; THREAD_LIMIT],
    pub waiting: [u32; THREAD_LIMIT],
}

impl Tallies {
    // One entry more.
    pub fn count(&mut self, t: u8, outcome: Outcome)
        requires { (t < thread_limit) × (slice_index self.old.moved t < list_limit)
            × (slice_index self.old.waiting t < list_limit) }
        ensures moved { self.new.moved ≡ moved_after outcome t self.old.moved }
        ensures waiting { self.new.waiting ≡ waiting_after outcome t self.old.waiting }
    {
        match outcome {
            Outcome::Moved => self.moved[t as usize] += 1,
            Outcome::Waiting => self.waiting[t as usize] += 1,
            Outcome::Idle => {}
        }
    }
}
