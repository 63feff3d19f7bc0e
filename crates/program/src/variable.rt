// A variable record's kind (the standard, "The file": "Kinds").
ghost use Rattle.std.specs.Prelude.{◌≡◌, ◌+◌, ◌*◌, ◌≤◌, length};
ghost use Rattle.program.specs.Choice.{first_bad};
ghost use Rattle.program.specs.Field.{word_at};
ghost use Rattle.program.specs.Limits.{variable_size};
ghost use Rattle.program.specs.Variable.{record_at, kind_of};
ghost use Rattle.program.specs.Variable as Variable;

use crate::limits::VARIABLE_SIZE;
use crate::offence::first_bad;

#[derive(Clone, Copy, PartialEq, Eq)]
pub enum Kind {
    // Guarded by the lock.
    Guarded(u8),
    // Own to the thread.
    Own(u8),
    // Never written.
    Fixed,
    // Free to all.
    Open,
}

// What the kind and g bytes of a record say, if it is valid.
#[tactic(auto, unfolding(crate::specs::Variable::recorded))]
pub fn record_of(locks: usize, threads: usize, kind: u8, g: u8) -> Option<Kind>
    ensures { result ≡ Variable.recorded locks threads kind g }
{
    match kind {
        0 => (usize::from(g) < locks).then_some(Kind::Guarded(g)),
        1 => (usize::from(g) < threads).then_some(Kind::Own(g)),
        2 => (g == 0).then_some(Kind::Fixed),
        3 => (g == 0).then_some(Kind::Open),
        _ => None,
    }
}

// The record at an offset: into the whole file, since that is what a refusal tells. The counts come alone, before there is a Layout.
#[tactic(auto, unfolding(crate::specs::Variable::record_at))]
pub fn record_at(s: &[u8], at: usize, locks: usize, threads: usize) -> Option<Kind>
    requires { at + variable_size ≤ length s.now }
    ensures { result ≡ record_at locks threads s.now at }
{
    record_of(locks, threads, s[at], s[at + 1])
}

// The kind that it says. By cases of its own and not by record_of, whose Option made judging fill a code's rules half as fast.
#[tactic(auto, unfolding(crate::specs::Variable::record_at, crate::specs::Variable::recorded))]
pub fn kind_at(s: &[u8], at: usize, locks: usize, threads: usize) -> Kind
    requires { at + variable_size ≤ length s.now }
    ensures { result ≡ kind_of (record_at locks threads s.now at) }
{
    let g = s[at + 1];
    match s[at] {
        0 if usize::from(g) < locks => Kind::Guarded(g),
        1 if usize::from(g) < threads => Kind::Own(g),
        2 if g == 0 => Kind::Fixed,
        _ => Kind::Open,
    }
}

// Its initial value.
pub fn initial_at(s: &[u8], at: usize) -> u32
    requires { at + variable_size ≤ length s.now }
    ensures { result ≡ word_at s.now (at + 2) }
{
    u32::from_be_bytes([s[at + 2], s[at + 3], s[at + 4], s[at + 5]])
}

// Whether it is valid.
fn is_valid_record(s: &[u8], at: usize, locks: usize, threads: usize) -> bool
    requires { at + variable_size ≤ length s.now }
    ensures { result ≡ Variable.is_valid (record_at locks threads s.now at) }
{
    record_at(s, at, locks, threads).is_some()
}

// The first of n records from an offset on that is not valid.
pub fn first_bad_record(
    s: &[u8],
    start: usize,
    n: usize,
    locks: usize,
    threads: usize,
) -> Option<usize>
    requires { start + variable_size * n ≤ length s.now }
    ensures { result ≡ first_bad (λ p. Variable.is_valid (record_at locks threads s.now p)) variable_size n start }
{
    first_bad(
        |at| is_valid_record(s, at, locks, threads),
        start,
        VARIABLE_SIZE,
        n,
    )
}
