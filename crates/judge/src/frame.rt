// The constructs that are open where a code is walked over, and how a part of one ends (the standard, "Lock discipline", "Atomicities").
ghost use Rattle.std.specs.Prelude.{◌≡◌};
ghost use Rattle.judge.specs.Judging.{states_truly};
ghost use Rattle.judge.specs.Internal.Scan.{opened_frame, other_part};
ghost use Rattle.judge.specs.Internal.Scan as Scan;

use crate::lock_set::LockSet;
use atomicity::Atomicity;
use program::refusal::Refusal;

// Which part of which construct the walk is in.
#[derive(Clone, Copy)]
pub enum Part {
    // Of an IF: what stands before its ELSE.
    Then,
    // Of an IF: what stands after its ELSE, with the then part's atomicity.
    Else(Atomicity),
    // A WHILE's body.
    Body,
    // An ATOMIC's body, with what the ATOMIC states: a report byte, or 0, as the instruction has it.
    Block(u8),
}

// A part with what its closer needs.
#[derive(Clone, Copy)]
pub struct Frame {
    pub part: Part,
    // Where the opener's byte stands in the report.
    pub opener: usize,
    // The lock set at the opener; of an ELSE part, the one at the then part's end.
    pub locks: LockSet,
    // The atomicity of what stands before the opener in the part around it.
    pub before: Atomicity,
}

// How a part ends that breaks no rule.
#[derive(Clone, Copy)]
pub enum Closed {
    // An IF's then part: its other part comes.
    Other,
    // The construct has ended, and this is its atomicity.
    Whole(Atomicity),
}

// Whether what an ATOMIC states of its block is true: by report bytes, since what is stated is one.
#[tactic(auto, unfolding(crate::specs::Judging::states_truly))]
fn states_truly(stated: u8, a: Atomicity) -> bool
    ensures { result ≡ states_truly stated a }
{
    stated == 0 || stated == a.report_byte()
}

// The END, at file offset d, of an ATOMIC that states this.
#[tactic(auto, using(crate::proofs::Frames::is_top_same))]
fn block_end(stated: u8, d: usize, sofar: Atomicity) -> Result<Closed, Refusal>
    ensures { result ≡ Scan.block_end stated d sofar }
{
    if sofar == Atomicity::Top {
        return Err(Refusal::NotAtomic(d));
    }
    if states_truly(stated, sofar) {
        return Ok(Closed::Whole(sofar));
    }
    Err(Refusal::FalseStatement(d))
}

impl Frame {
    // Of the part that an opener opens, whose byte stands at `at` in the report.
    pub fn opened(part: Part, at: usize, locks: LockSet, sofar: Atomicity) -> Frame
        ensures { result ≡ opened_frame part at locks sofar }
    {
        Frame {
            part,
            opener: at,
            locks,
            before: sofar,
        }
    }

    // Of an IF's other part, where the then part ends with these locks and this atomicity.
    pub fn other(self, locks: LockSet, sofar: Atomicity) -> Frame
        ensures { result ≡ other_part self locks sofar }
    {
        Frame {
            part: Part::Else(sofar),
            locks,
            ..self
        }
    }

    // A construct of this atomicity, whose part is to end at file offset d with the frame's lock set.
    #[tactic(auto, unfolding(crate::specs::LockSet::same))]
    fn ends_alike(self, d: usize, locks: LockSet, own: Atomicity) -> Result<Closed, Refusal>
        ensures { result ≡ Scan.ends_alike d self locks own }
    {
        if self.locks == locks {
            return Ok(Closed::Whole(own));
        }
        Err(Refusal::SetsDiffer(d))
    }

    // The closer of its part, at file offset d, after these locks and this atomicity.
    pub fn end(self, d: usize, locks: LockSet, sofar: Atomicity) -> Result<Closed, Refusal>
        ensures { result ≡ Scan.end_of self.part d self locks sofar }
    {
        match self.part {
            Part::Then => Ok(Closed::Other),
            Part::Else(first) => self.ends_alike(d, locks, first.join(sofar)),
            Part::Body => self.ends_alike(d, locks, sofar.closure()),
            Part::Block(stated) => block_end(stated, d, sofar),
        }
    }
}
