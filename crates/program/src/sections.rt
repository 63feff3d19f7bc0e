// A sound file with the table of its sections: where in the file each code lies, found once after reading (the standard, "The file": "one
// code section for each thread").
ghost use Rattle.std.specs.Prelude.{◌≡◌, ◌+◌, ◌*◌, ◌≤◌, ◌<◌, get_or};
ghost use Rattle.program.specs.Limits.{instruction_size, report_limit};
ghost use Rattle.program.specs.Internal.Bounds.{code_limit};
ghost use Rattle.program.specs.Internal.Sections.{SectionTable, bytes_before};
ghost use Rattle.program.specs.Internal.Sound.{SoundFile, SoundSections-prop};
ghost use Rattle.std.proofs.Props.{props};

use crate::layout::{Layout, code_count};
use crate::limits::{CODE_LIMIT, INSTRUCTION_SIZE, RECORDS_START, VARIABLE_SIZE};

// A file that was read as sound: its bytes and layout, and of each code the offset of its first instruction and how many it has.
// Two arrays and not one of pairs: judging and the step machine's run read the counts of all threads without the starts, and what is proved of
// each stands apart.
#[derive(Clone, Copy)]
pub struct ProgramFile<'a> {
    pub bytes: &'a [u8],
    pub layout: Layout,
    pub starts: [usize; CODE_LIMIT],
    pub counts: [usize; CODE_LIMIT],
    pub ghost located: { SectionTable bytes.now layout starts counts } by { Prim.hlevel (props, SoundSections-prop) },
}

impl<'a> ProgramFile<'a> {
    // The sections of a sound file, front to back.
    #[tactic(auto, using(crate::proofs::SectionTable::filling_start))]
    pub fn locate(bytes: &'a [u8], layout: Layout) -> Self
        requires { SoundFile bytes.now layout }
        ensures { (result.bytes.now ≡ bytes.now) × (result.layout ≡ layout) }
    {
        let mut starts = [0usize; CODE_LIMIT];
        let mut counts = [0usize; CODE_LIMIT];
        let mut at = RECORDS_START + VARIABLE_SIZE * layout.variables;
        for c in 0..layout.threads {
            let count = code_count(bytes, at);
            starts[c] = at + 2;
            counts[c] = count;
            at = at + 2 + INSTRUCTION_SIZE * count;
        }
        ProgramFile {
            bytes,
            layout,
            starts,
            counts,
        }
    }

    // How many instructions code c has. (c is a number that callers count: its bound is a clause of each method.)
    pub fn count(&self, c: usize) -> usize
        requires { c < self.now.layout.threads }
        ensures { result ≡ get_or self.now.counts c 0 }
    {
        self.counts[c]
    }

    // Where code c's length field stands.
    pub fn head_of(&self, c: usize) -> usize
        requires { c < self.now.layout.threads }
        ensures { result + 2 ≡ get_or self.now.starts c 0 }
    {
        self.starts[c] - 2
    }

    // The offset of code c's instruction at a place.
    pub fn offset_of(&self, c: usize, place: usize) -> usize
        requires { (c < self.now.layout.threads) × (place ≤ get_or self.now.counts c 0) }
        ensures { result ≡ get_or self.now.starts c 0 + instruction_size * place }
    {
        self.starts[c] + INSTRUCTION_SIZE * place
    }

    // How many report bytes the codes before code c have: code c's report starts there.
    pub fn bytes_before(&self, c: usize) -> usize
        requires { (c ≤ code_limit) × (bytes_before self.now.counts c ≤ report_limit) }
        ensures { result ≡ bytes_before self.now.counts c }
    {
        bytes_before(&self.counts, c)
    }
}

// How many report bytes the codes before code c have, by the counts of all.
#[tactic(auto, unfolding(crate::specs::Internal::Sections::bytes_before), using(crate::proofs::SectionTable::bytes_one_more, crate::proofs::SectionTable::bytes_inside))]
pub fn bytes_before(counts: &[usize; CODE_LIMIT], c: usize) -> usize
    requires { (c ≤ code_limit) × (bytes_before counts.now c ≤ report_limit) }
    ensures { result ≡ bytes_before counts.now c }
{
    let mut bytes = 0;
    for u in 0..c {
        bytes = bytes + counts[u] + 1;
    }
    bytes
}
