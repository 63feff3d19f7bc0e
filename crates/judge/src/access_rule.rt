// What a variable asks of a code that reads or writes it (the standard, "Lock discipline": "A guarded variable is read or written only
// with its lock in the set; .."; "Rules"), worked out once for each code.
ghost use Rattle.std.specs.Prelude.{◌≡◌, ◌^◌, ◌<◌};
ghost use Rattle.std.proofs.Props.{props};
ghost use Rattle.program.specs.Choice.{choose};
ghost use Rattle.program.specs.Layout.{program_of};
ghost use Rattle.program.specs.Internal.Bounds.{code_limit};
ghost use Rattle.program.specs.Internal.Marks.{besides, writer_table};
ghost use Rattle.program.specs.Internal.Sound.{SoundFile};
ghost use Rattle.judge.specs.Internal.Rule.{rule_of, LocksBelow, RuleTables};
ghost use Rattle.judge.specs.declared.access_rule.Rule.TheVariants.{Free, Never};

use program::layout::Layout;
use program::limits::{RECORDS_START, VARIABLE_LIMIT, VARIABLE_SIZE};
use program::sections::ProgramFile;
use program::variable::{Kind, kind_at};

// Of the READs of a variable by a code, or of its WRITEs.
#[derive(Clone, Copy)]
pub enum Rule {
    // The access is B.
    Free,
    // The access is B, and this lock is to be held.
    Locked(u8),
    // The access is A.
    Single,
    // No access keeps the discipline.
    Never,
}

// Whether another thread's code has a WRITE of a variable, by the bits of its writers.
fn written_by_other(writers: u8, code: usize) -> bool
    requires { code < code_limit }
    ensures { result ≡ besides (2 ^ code) writers }
{
    let own = 1u8 << code;
    (writers | own) != own
}

impl Rule {
    fn free_if(good: bool) -> Rule
        ensures { result ≡ choose good Free Never }
    {
        if good { Rule::Free } else { Rule::Never }
    }

    // For a variable of this kind. That an access may race counts for an open one only; a WRITE of one always may. (`writing` is a fact of the
    // access, as in the definition, and chooses no step.)
    fn of(kind: Kind, code: usize, writing: bool, races: bool) -> Rule
        ensures { result ≡ rule_of kind code writing races }
    {
        match kind {
            Kind::Guarded(g) => Rule::Locked(g),
            Kind::Own(g) => Rule::free_if(usize::from(g) == code),
            Kind::Fixed => Rule::free_if(!writing),
            Kind::Open => if races { Rule::Single } else { Rule::Free },
        }
    }
}

// The rules of all variables for one code, by the writers of each. A table whose locks are below 16 stays so.
pub fn fill_rules(
    bytes: &[u8],
    layout: Layout,
    code: usize,
    writers: &[u8; VARIABLE_LIMIT],
    reads: &mut [Rule; VARIABLE_LIMIT],
    writes: &mut [Rule; VARIABLE_LIMIT],
)
    requires { SoundFile bytes.now layout × (code < code_limit) × (writers.now ≡ writer_table (program_of bytes.now layout)) }
    ensures lawful { RuleTables bytes.now layout code reads.new writes.new }
    ensures read_locks { LocksBelow reads.old → LocksBelow reads.new }
    ensures write_locks { LocksBelow writes.old → LocksBelow writes.new }
{
    for v in 0..layout.variables {
        let kind = kind_at(
            bytes,
            RECORDS_START + VARIABLE_SIZE * v,
            layout.locks,
            layout.threads,
        );
        let others = written_by_other(writers[v], code);
        reads[v] = Rule::of(kind, code, false, others);
        writes[v] = Rule::of(kind, code, true, true);
    }
}

// The rules of all variables of a file for one of its codes: two arrays of the limit's size, since there is no heap and an access looks into
// one of the two, whose Rules have a byte or two each.
#[derive(Drop)]
pub struct AccessRules<'a> {
    pub file: &'a ProgramFile<'a>,
    pub code: usize,
    pub reads: [Rule; VARIABLE_LIMIT],
    pub writes: [Rule; VARIABLE_LIMIT],
    pub ghost is_code: { code < code_limit },
    pub ghost lawful: { RuleTables file.now.bytes.now file.now.layout code reads writes } by { Prim.hlevel props },
}

impl<'a> AccessRules<'a> {
    // By the writers of each variable. Each rule's lock is below 16, also past the file's last variable.
    pub fn of(
        file: &'a ProgramFile<'a>,
        code: usize,
        writers: &[u8; VARIABLE_LIMIT],
    ) -> AccessRules<'a>
        requires { (code < code_limit) × (writers.now ≡ writer_table (program_of file.now.bytes.now file.now.layout)) }
        ensures of_code { (result.file.now ≡ file.now) × (result.code ≡ code) }
        ensures read_locks { LocksBelow result.reads }
        ensures write_locks { LocksBelow result.writes }
    {
        let mut reads = [Rule::Free; VARIABLE_LIMIT];
        let mut writes = [Rule::Free; VARIABLE_LIMIT];
        fill_rules(
            file.bytes,
            file.layout,
            code,
            writers,
            &mut reads,
            &mut writes,
        );
        AccessRules {
            file,
            code,
            reads,
            writes,
        }
    }
}
