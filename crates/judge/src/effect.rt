// What an instruction does in the walk over a code (the standard, "Lock discipline", "Atomicities").
ghost use Rattle.std.specs.Prelude.{◌≡◌, List, ℕ, ◌<◌, not, Ok};
ghost use Rattle.program.specs.View.{access_of};
ghost use Rattle.program.specs.Answer.{require};
ghost use Rattle.program.specs.Layout.{program_of};
ghost use Rattle.program.specs.Limits.{lock_limit, variable_limit};
ghost use Rattle.program.specs.Internal.Sound.{AccessBelow};
ghost use Rattle.program.specs.declared.layout.Layout.{Layout};
ghost use Rattle.program.specs.declared.refusal.Refusal.TheVariants.{Taken, NotTaken};
ghost use Rattle.judge.specs.LockSet.{holds};
ghost use Rattle.judge.specs.Internal.Effect.{effect_of};
ghost use Rattle.judge.specs.Internal.Rule.{asked_by, lock_of, RuleTables, ruled};

use crate::access_rule::{AccessRules, Rule};
use crate::frame::Part;
use crate::lock_set::LockSet;
use program::instruction::Instruction;
use program::limits::{LOCK_LIMIT, VARIABLE_LIMIT};
use program::refusal::Refusal;

#[derive(Clone, Copy)]
pub enum Effect {
    // It is B and leaves the lock set.
    Nothing,
    // It is A and leaves the lock set.
    Single,
    // The lock is added: R.
    Takes(u8),
    // The lock is taken out: L.
    Gives(u8),
    // An IF or a WHILE, with the part that it opens.
    Opens(Part),
    // A closer. Which part it closes, the innermost frame says: reading has seen to that.
    Closes,
}

// A read or a write at file offset d of a variable with this rule.
#[tactic(auto, unfolding(crate::specs::Internal::Rule::ruled))]
fn by_rule(rule: Rule, d: usize, locks: LockSet) -> Result<Effect, Refusal>
    requires { lock_of rule < lock_limit }
    ensures { result ≡ ruled rule d locks }
{
    match rule {
        Rule::Free => Ok(Effect::Nothing),
        Rule::Locked(k) => if locks.holds(k) {
            Ok(Effect::Nothing)
        } else {
            Err(Refusal::Access(d))
        },
        Rule::Single => Ok(Effect::Single),
        Rule::Never => Err(Refusal::Access(d)),
    }
}

// TAKE and GIVE: two sentences of the standard, each with its own refusal. Here and below the offset is for a refusal alone.
fn taking(k: u8, d: usize, locks: LockSet) -> Result<Effect, Refusal>
    requires { k < lock_limit }
    ensures { result ≡ require (not (holds locks k)) (Taken d) (Ok (Effect.Takes k)) }
{
    if locks.holds(k) {
        return Err(Refusal::Taken(d));
    }
    Ok(Effect::Takes(k))
}

fn giving(k: u8, d: usize, locks: LockSet) -> Result<Effect, Refusal>
    requires { k < lock_limit }
    ensures { result ≡ require (holds locks k) (NotTaken d) (Ok (Effect.Gives k)) }
{
    if locks.holds(k) {
        return Ok(Effect::Gives(k));
    }
    Err(Refusal::NotTaken(d))
}

// The rule that an instruction's access is by.
#[tactic(auto, unfolding(program::specs::View::access_of))]
fn asked_by(i: Instruction, reads: &[Rule; VARIABLE_LIMIT], writes: &[Rule; VARIABLE_LIMIT]) -> Rule
    requires { AccessBelow lock_limit variable_limit (access_of i) }
    ensures { result ≡ asked_by reads.now writes.now (access_of i) }
{
    match i {
        Instruction::Read(_, v) => reads[v as usize],
        Instruction::Write(_, v) => writes[v as usize],
        _ => Rule::Free,
    }
}

// The lock that it names, or 0.
fn lock_of(rule: Rule) -> u8
    ensures { result ≡ lock_of rule }
{
    match rule {
        Rule::Locked(k) => k,
        _ => 0,
    }
}

// What the instruction at file offset d does where these locks are held, by a code's rules for READs and for WRITEs. That the lock it asks for
// is below the limit is a clause, and no test at each access of a walk: of a code's rules it is known.
#[tactic(auto, unfolding(crate::specs::Internal::Effect::effect_of, crate::specs::Internal::Effect::form_effect, crate::specs::Internal::Effect::access_effect, program::specs::View::access_of, program::specs::View::form_of, program::specs::View::statement_of))]
pub(crate) fn effect_below(
    i: Instruction,
    d: usize,
    locks: LockSet,
    reads: &[Rule; VARIABLE_LIMIT],
    writes: &[Rule; VARIABLE_LIMIT],
) -> Result<Effect, Refusal>
    requires { AccessBelow lock_limit variable_limit (access_of i) × (lock_of (asked_by reads.now writes.now (access_of i)) < lock_limit) }
    ensures { (s : List ℕ) (l : Layout) (code : ℕ) → RuleTables s l code reads.now writes.now
        → AccessBelow l.locks l.variables (access_of i) → result ≡ effect_of (program_of s l) code d i locks }
{
    match i {
        Instruction::Read(_, v) => by_rule(reads[v as usize], d, locks),
        Instruction::Write(_, v) => by_rule(writes[v as usize], d, locks),
        Instruction::Take(k) => taking(k, d, locks),
        Instruction::Give(k) => giving(k, d, locks),
        Instruction::If(_, _) => Ok(Effect::Opens(Part::Then)),
        Instruction::Else(_) => Ok(Effect::Closes),
        Instruction::While(_, _) => Ok(Effect::Opens(Part::Body)),
        Instruction::Again(_) => Ok(Effect::Closes),
        Instruction::Atomic(stated, _) => Ok(Effect::Opens(Part::Block(stated))),
        Instruction::End => Ok(Effect::Closes),
        _ => Ok(Effect::Nothing),
    }
}

// The same for any rules: a lock at or above the limit is in no set, and an access that asks for it is refused.
pub fn effect_by(
    i: Instruction,
    d: usize,
    locks: LockSet,
    reads: &[Rule; VARIABLE_LIMIT],
    writes: &[Rule; VARIABLE_LIMIT],
) -> Result<Effect, Refusal>
    requires { AccessBelow lock_limit variable_limit (access_of i) }
    ensures { (s : List ℕ) (l : Layout) (code : ℕ) → RuleTables s l code reads.now writes.now
        → AccessBelow l.locks l.variables (access_of i) → result ≡ effect_of (program_of s l) code d i locks }
{
    if LOCK_LIMIT <= usize::from(lock_of(asked_by(i, reads, writes))) {
        return Err(Refusal::Access(d));
    }
    effect_below(i, d, locks, reads, writes)
}

// The same by the rules of a code of a sound file.
pub fn effect_of(
    i: Instruction,
    d: usize,
    locks: LockSet,
    rules: &AccessRules,
) -> Result<Effect, Refusal>
    requires { AccessBelow lock_limit variable_limit (access_of i) }
    ensures { AccessBelow rules.now.file.now.layout.locks rules.now.file.now.layout.variables (access_of i)
        → result ≡ effect_of (program_of rules.now.file.now.bytes.now rules.now.file.now.layout) rules.now.code d i locks }
{
    effect_by(i, d, locks, &rules.reads, &rules.writes)
}
