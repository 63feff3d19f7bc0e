// Why a call is refused (the standard, "Who can bring a number about"). Each refusal holds its detail D.
ghost use Rattle.std.specs.Prelude.{◌≡◌, ◌<◌};
ghost use Rattle.program.specs.Refusal.{detail_of, number_of};

#[derive(Clone, Copy, PartialEq, Eq)]
pub enum Refusal {
    // 1: bytes of a field or section missing.
    Missing(usize),
    // 2: version.
    Version(usize),
    // 3: lock or thread count.
    Count(usize),
    // 4: section length.
    Length(usize),
    // 5: bytes left over.
    LeftOver(usize),
    // 6: variable record.
    Record(usize),
    // 7: instruction.
    Instruction(usize),
    // 8: nesting.
    Nesting(usize),
    // 9: variable access against the lock discipline.
    Access(usize),
    // 10: TAKE of a lock in the set.
    Taken(usize),
    // 11: GIVE of a lock not in the set.
    NotTaken(usize),
    // 12: lock sets differ.
    SetsDiffer(usize),
    // 13: a block is T.
    NotAtomic(usize),
    // 14: list too long.
    LongList(usize),
    // 15: thread number too large.
    ThreadNumber(usize),
    // 16: buffer too short.
    ShortBuffer(usize),
    // 17: no such line.
    LineNumber(usize),
    // 18: a false statement.
    FalseStatement(usize),
}

impl Refusal {
    // Its number: no cast, since the variants hold details; one arm for each row of the standard's table.
    pub fn number(self) -> usize
        ensures value { result ≡ number_of self }
        ensures upper_bound { result < 19 }
    {
        match self {
            Refusal::Missing(_) => 1,
            Refusal::Version(_) => 2,
            Refusal::Count(_) => 3,
            Refusal::Length(_) => 4,
            Refusal::LeftOver(_) => 5,
            Refusal::Record(_) => 6,
            Refusal::Instruction(_) => 7,
            Refusal::Nesting(_) => 8,
            Refusal::Access(_) => 9,
            Refusal::Taken(_) => 10,
            Refusal::NotTaken(_) => 11,
            Refusal::SetsDiffer(_) => 12,
            Refusal::NotAtomic(_) => 13,
            Refusal::LongList(_) => 14,
            Refusal::ThreadNumber(_) => 15,
            Refusal::ShortBuffer(_) => 16,
            Refusal::LineNumber(_) => 17,
            Refusal::FalseStatement(_) => 18,
        }
    }

    // Its detail D.
    pub fn detail(self) -> usize
        ensures { result ≡ detail_of self }
    {
        match self {
            Refusal::Missing(d)
            | Refusal::Version(d)
            | Refusal::Count(d)
            | Refusal::Length(d)
            | Refusal::LeftOver(d)
            | Refusal::Record(d)
            | Refusal::Instruction(d)
            | Refusal::Nesting(d)
            | Refusal::Access(d)
            | Refusal::Taken(d)
            | Refusal::NotTaken(d)
            | Refusal::SetsDiffer(d)
            | Refusal::NotAtomic(d)
            | Refusal::LongList(d)
            | Refusal::ThreadNumber(d)
            | Refusal::ShortBuffer(d)
            | Refusal::LineNumber(d)
            | Refusal::FalseStatement(d) => d,
        }
    }
}
