// A list of entries, run from the start (the standard, "The step machine").
ghost use Rattle.std.specs.Prelude.{◌≡◌, ℕ, ◌+◌, ◌<◌, ◌≤◌, true, List, ◌++◌, ◌==◌, length, get_or, drop, slice_index};
ghost use Rattle.program.specs.Layout.{program_of};
ghost use Rattle.program.specs.Limits.{list_limit, thread_limit, size_of_state};
ghost use Rattle.machine.specs.State.{state_bytes};
ghost use Rattle.machine.specs.Run.{Entries, run};
ghost use Rattle.machine.specs.Internal.Kept.{Kept, EightRegisters-prop};
ghost use Rattle.std.proofs.Props.{props};

use crate::counts::{Counts, Tallies, counts_of};
use crate::prepare::initial_values;
use crate::running::Running;
use crate::thread::{Outcome, Thread};
use program::instruction::instruction_at;
use program::limits::{LOCK_LIMIT, REGISTER_COUNT, THREAD_LIMIT};
use program::sections::ProgramFile;

// After so many entries it is asked whether every thread is at its end.
const PART: usize = 4096;

// A sound file's program, being run: its state has what holds between two entries. The file stays: each method that is lent it says so.
#[derive(Drop)]
pub struct Machine<'a> {
    pub file: ProgramFile<'a>,
    pub running: Running,
    pub ghost kept: { Kept file.layout file.counts running.variables running.locks running.threads } by { Prim.hlevel (props, EightRegisters-prop) },
}

impl<'a> Machine<'a> {
    ghost use Rattle.machine.specs.State.{start};
    ghost use Rattle.machine.specs.Step.{outcome};
    ghost use Rattle.machine.specs.Step as Step;
    ghost use Rattle.machine.specs.Run.{run_from};
    ghost use Rattle.machine.specs.Internal.Tally.{AtMost, Numbers, RunTo};
    ghost use Rattle.machine.specs.Internal.Kept.{Ended, nobody};
    ghost use Rattle.machine.specs.Internal.Here.{program, here, from_here};

    // At the start. Place and registers are written out, as the standard does, and are no Default.
    #[tactic(auto, unfolding(crate::specs::State::fresh), using(crate::proofs::Start::start_in))]
    fn start(file: &ProgramFile<'a>) -> Self
        ensures { (result.file ≡ file.now) × (here result ≡ start (program result)) }
    {
        let fresh = Thread {
            place: 0,
            registers: [0; REGISTER_COUNT],
        };
        Machine {
            file: *file,
            running: Running {
                variables: initial_values(file.bytes, file.layout),
                locks: [0; LOCK_LIMIT],
                threads: [fresh; THREAD_LIMIT],
            },
        }
    }

    // One entry of a list.
    fn step(&mut self, t: u8) -> Outcome
        requires { t < self.old.file.layout.threads }
        ensures file { self.new.file ≡ self.old.file }
        ensures value { result ≡ outcome (program self.old) t (here self.old) }
        ensures state_after { here self.new ≡ Step.step (program self.old) t (here self.old) }
    {
        let at = t as usize;
        let place = self.running.threads[at].place;
        if place == self.file.count(at) {
            return Outcome::Idle;
        }
        let i = instruction_at(self.file.bytes, self.file.offset_of(at, place));
        self.running.move_by(i, t)
    }

    // Whether a thread is at its end, as one is that the file does not have: of such a one `count` tells nothing, so the counts are indexed.
    fn is_ended(&self, t: usize) -> bool
        requires { t < thread_limit }
        ensures { result ≡ ((get_or self.now.running.threads t nobody).place == slice_index self.now.file.counts t) }
    {
        self.running.threads[t].place == self.file.counts[t]
    }

    // Whether each of eight threads is.
    #[tactic(auto, unfolding(crate::specs::Internal::Kept::Ended))]
    fn all_ended(&self) -> bool
        ensures { result ≡ true → Ended self.now.file.counts self.now.running.threads }
    {
        for t in 0..THREAD_LIMIT {
            if !self.is_ended(t) {
                return false;
            }
        }
        true
    }

    // Part of a list, one entry after the other: how often each thread moved and waited is added to what it did in the `before` entries before.
    fn part_entries(&mut self, list: &[u8], before: usize, tallies: &mut Tallies)
        requires { Entries self.old.file.layout.threads list.now
            × AtMost before tallies.old.moved tallies.old.waiting × (before + length list.now ≤ list_limit) }
        ensures file { self.new.file ≡ self.old.file }
        ensures run_to { (cs : List Counts) → Numbers cs tallies.old.moved tallies.old.waiting
            → RunTo (run_from (program self.old) (record { counts = cs; state = here self.old }) list.now)
            (here self.new) tallies.new.moved tallies.new.waiting }
        ensures at_most { AtMost (before + length list.now) tallies.new.moved tallies.new.waiting }
    {
        for &t in list {
            let outcome = self.step(t);
            tallies.count(t, outcome);
        }
    }

    // The entries of a list, a part at a time, until every thread is found to be at its end: then the rest is idle, and need only be counted.
    fn entries(&mut self, list: &[u8]) -> [Counts; THREAD_LIMIT]
        requires { Entries self.old.file.layout.threads list.now × (length list.now ≤ list_limit) }
        ensures file { self.new.file ≡ self.old.file }
        ensures whole_run { run_from (program self.old) (from_here self.old) list.now
            ≡ record { counts = result; state = here self.new } }
    {
        let mut tallies = Tallies::default();
        let mut before: usize = 0;
        for part in list.chunks(PART) {
            self.part_entries(part, before, &mut tallies);
            before += part.len();
            if self.all_ended() {
                break;
            }
        }
        let file = &self.file;
        counts_of(list, &file.counts, &self.running.threads, &tallies)
    }
}

// A list, run from the start of a sound file's program: the counts, and the end state's bytes. The list is a caller's bytes, lent in parts:
// that each names a thread stays a clause.
pub fn run_list(file: &ProgramFile, list: &[u8], out: &mut [u8]) -> [Counts; THREAD_LIMIT]
    requires { Entries file.now.layout.threads list.now × (length list.now ≤ list_limit)
        × (size_of_state file.now.layout.variables file.now.layout.locks file.now.layout.threads ≤ length out.old) }
    ensures counts { result ≡ (run (program_of file.now.bytes.now file.now.layout) list.now).counts }
    ensures state { out.new ≡ state_bytes (run (program_of file.now.bytes.now file.now.layout) list.now).state
        ++ drop (length (state_bytes (run (program_of file.now.bytes.now file.now.layout) list.now).state)) out.old }
{
    let mut machine = Machine::start(file);
    let counts = machine.entries(list);
    machine.running.write_state(file.layout, out);
    counts
}
