// One code judged in one walk (the standard, "Lock discipline", "Atomicities").
ghost use Rattle.std.specs.Prelude.{◌≡◌, List, ◌∷◌, ℕ, ◌+◌, ◌≤◌, ◌<◌, length, get_or, set};
ghost use Rattle.program.specs.Internal.Sections.{Located, no_section};
ghost use Rattle.program.specs.Layout.{instructions_at, program_of};
ghost use Rattle.program.specs.Limits.{entry_limit, lock_limit, report_limit, variable_limit};
ghost use Rattle.atomicity.specs.Atomicity.{composition, report_byte};
ghost use Rattle.atomicity.specs.declared.Atomicity.TheVariants.{Both};
ghost use Rattle.judge.specs.Internal.Rule.{RuleTables};
ghost use Rattle.judge.specs.Internal.Scan.{Ready, applied, carried, left_by, opened_frame, scan_code, seen, starting};
ghost use Rattle.judge.specs.Internal.Scan as Scan;

use crate::access_rule::{AccessRules, Rule};
use crate::effect::{Effect, effect_below};
use crate::frame::{Closed, Frame, Part};
use crate::lock_set::LockSet;
use atomicity::Atomicity;
use program::instruction::instruction_at;
use program::layout::Layout;
use program::limits::{ENTRY_LIMIT, INSTRUCTION_SIZE, VARIABLE_LIMIT};
use program::refusal::Refusal;
use program::sections::ProgramFile;
use program::stack::Stack;

// The report's byte where there is no atomicity: of "ELSE, AGAIN and END".
const CLOSER: u8 = 0;

// What the walk carries from one instruction to the next. The report stays beside it: a buffer inside it makes judging a fifth slower.
#[derive(Drop)]
pub struct Walk<'a> {
    pub locks: LockSet,
    // The atomicity of what was passed of the innermost part.
    pub sofar: Atomicity,
    // The open constructs, the innermost on top.
    pub frames: Stack<'a, Frame>,
}

impl<'a> Walk<'a> {
    // Where a code begins, with room for its frames.
    #[tactic(auto, unfolding(crate::specs::Internal::Scan::starting))]
    fn start(room: &'a mut [Frame; ENTRY_LIMIT]) -> Walk<'a>
        ensures { (report : List ℕ) → seen result report ≡ starting report }
    {
        Walk {
            locks: LockSet::empty(),
            sofar: Atomicity::Both,
            frames: Stack::new(room),
        }
    }

    // An instruction of this atomicity, whose byte stands at `at` in the report. (File offset and report index are two numbers of one
    // place, and no function takes both but close, apply and end: a struct of the two would be made at each instruction.)
    fn pass(&mut self, own: Atomicity, at: usize, report: &mut [u8])
        requires { at < length report.old }
        ensures { seen self.new report.new
            ≡ carried self.old.locks (composition self.old.sofar own) self.old.frames (set report.old at (report_byte own)) }
    {
        report[at] = own.report_byte();
        self.sofar = self.sofar.then(own);
    }

    // An opener of this part, whose byte stands at `at`.
    fn open(&mut self, part: Part, at: usize)
        requires { length self.old.frames < entry_limit }
        ensures { (self.new.locks ≡ self.old.locks) × (self.new.sofar ≡ Both) × (self.new.frames ≡ opened_frame part at self.old.locks self.old.sofar ∷ self.old.frames) }
    {
        self.frames
            .push(Frame::opened(part, at, self.locks, self.sofar));
        self.sofar = Atomicity::Both;
    }

    // A closer at file offset d, whose byte stands at `at`.
    #[tactic(auto, unfolding(crate::specs::Internal::Scan::applied))]
    fn close(&mut self, d: usize, at: usize, report: &mut [u8]) -> Result<(), Refusal>
        requires { (at < length report.old) × Ready Effect.Closes (seen self.old report.old) }
        ensures { left_by result (seen self.new report.new) ≡ applied Effect.Closes d at (seen self.old report.old) }
    {
        report[at] = CLOSER;
        let frame = self.frames.top().unwrap();
        match frame.end(d, self.locks, self.sofar)? {
            Closed::Other => {
                self.frames.replace_top(frame.other(self.locks, self.sofar));
                self.locks = frame.locks;
                self.sofar = Atomicity::Both;
            }
            Closed::Whole(own) => {
                self.frames.pop();
                report[frame.opener] = own.report_byte();
                self.sofar = frame.before.then(own);
            }
        }
        Ok(())
    }

    // The instruction at file offset d, whose byte stands at `at`, by what it does.
    #[tactic(auto, unfolding(crate::specs::Internal::Scan::applied))]
    fn apply(
        &mut self,
        effect: Effect,
        d: usize,
        at: usize,
        report: &mut [u8],
    ) -> Result<(), Refusal>
        requires { (at < length report.old) × Ready effect (seen self.old report.old) }
        ensures { left_by result (seen self.new report.new) ≡ applied effect d at (seen self.old report.old) }
    {
        match effect {
            // Composed with B, what was passed stays as it is.
            Effect::Nothing => report[at] = Atomicity::Both.report_byte(),
            Effect::Single => self.pass(Atomicity::Atomic, at, report),
            Effect::Takes(k) => {
                self.locks = self.locks.with(k);
                self.pass(Atomicity::Right, at, report);
            }
            Effect::Gives(k) => {
                self.locks = self.locks.without(k);
                self.pass(Atomicity::Left, at, report);
            }
            Effect::Opens(part) => self.open(part, at),
            Effect::Closes => return self.close(d, at, report),
        }
        Ok(())
    }

    // The code's end, at file offset d: "A thread's code must end with none". Its byte stands at `at`.
    #[tactic(auto, unfolding(crate::specs::Internal::Scan::ending, crate::specs::LockSet::same))]
    fn end(&self, d: usize, at: usize, report: &mut [u8]) -> Result<(), Refusal>
        requires { at < length report.old }
        ensures { left_by result report.new ≡ Scan.ending d at (seen self.now report.old) }
    {
        if self.locks != LockSet::empty() {
            return Err(Refusal::SetsDiffer(d));
        }
        report[at] = self.sofar.report_byte();
        Ok(())
    }
}

// A code of a file.
#[derive(Clone, Copy)]
pub struct Code {
    pub number: usize,
    // The file offset of its first instruction, and how many it has.
    pub start: usize,
    pub count: usize,
    // Where its first byte stands in the report.
    pub first: usize,
}

// One code, of a file that need not be sound in its other codes. The layout is there for the contract: reading has tested the instructions by
// its counts.
pub fn walk_section(
    bytes: &[u8],
    layout: Layout,
    code: Code,
    reads: &[Rule; VARIABLE_LIMIT],
    writes: &[Rule; VARIABLE_LIMIT],
    report: &mut [u8],
) -> Result<(), Refusal>
    requires { Located bytes.now layout code.start code.count code.number × RuleTables bytes.now layout code.number reads.now writes.now
        × (layout.locks ≤ lock_limit) × (layout.variables ≤ variable_limit) × (code.first + code.count < report_limit) × (report_limit ≤ length report.old) }
    ensures { left_by result report.new ≡ scan_code (program_of bytes.now layout) code.number code.first report.old
        (record { start = code.start; code = instructions_at layout.locks layout.variables bytes.now code.count code.start }) }
{
    // What stands in it is never read.
    let mut room = [Frame::opened(Part::Body, 0, LockSet::empty(), Atomicity::Both); ENTRY_LIMIT];
    let mut walk = Walk::start(&mut room);
    for p in 0..code.count {
        let d = code.start + INSTRUCTION_SIZE * p;
        let i = instruction_at(bytes, d);
        let effect = effect_below(i, d, walk.locks, reads, writes)?;
        walk.apply(effect, d, code.first + p, &mut *report)?;
    }
    walk.end(
        code.start + INSTRUCTION_SIZE * code.count,
        code.first + code.count,
        report,
    )
}

// A code of a file by its rules, its report written from `first` on.
pub(crate) fn walk_by(
    file: &ProgramFile,
    number: usize,
    reads: &[Rule; VARIABLE_LIMIT],
    writes: &[Rule; VARIABLE_LIMIT],
    first: usize,
    report: &mut [u8],
) -> Result<(), Refusal>
    requires { (number < file.now.layout.threads) × RuleTables file.now.bytes.now file.now.layout number reads.now writes.now
        × (first + get_or file.now.counts number 0 < report_limit) × (report_limit ≤ length report.old) }
    ensures { let p = program_of file.now.bytes.now file.now.layout in
        left_by result report.new ≡ scan_code p number first report.old (get_or p.codes number no_section) }
{
    let code = Code {
        number,
        start: file.offset_of(number, 0),
        count: file.count(number),
        first,
    };
    walk_section(file.bytes, file.layout, code, reads, writes, report)
}

// The code that the rules are for, its report written from `first` on.
pub fn walk_code(rules: &AccessRules, first: usize, report: &mut [u8]) -> Result<(), Refusal>
    requires { (rules.now.code < rules.now.file.now.layout.threads) × (first + get_or rules.now.file.now.counts rules.now.code 0 < report_limit)
        × (report_limit ≤ length report.old) }
    ensures { let p = program_of rules.now.file.now.bytes.now rules.now.file.now.layout in
        left_by result report.new ≡ scan_code p rules.now.code first report.old (get_or p.codes rules.now.code no_section) }
{
    walk_by(
        rules.file,
        rules.code,
        &rules.reads,
        &rules.writes,
        first,
        report,
    )
}
