// Each kind of line (the standard, "Line and bench"), written to the start of a lent buffer of 48 bytes or more. This was tried with lines
// that are answered by value and written by their caller: they are copied at each return, and a line took a third longer.
// The buffer is a slice, since callers have buffers of any length from 48 on, and how large a number may be is a clause, since it is what
// its line has room for, and no width of integer says that. `file` and `at` stand side by side, as in the definitions (specs/Line.antt),
// which show bytes of the file from an offset on; a slice from there would leave it to each caller to prove where the slice lies.
ghost use Rattle.std.specs.Prelude.{[], ◌∷◌, ◌++◌, ◌+◌, ◌≤◌, ◌<◌, length};
ghost use Rattle.program.specs.Field.{byte_at};
ghost use Rattle.program.specs.Limits.{variable_size, instruction_size, records_start, line_size};
ghost use Rattle.printout.specs.Text.{ascii, decimal, line_of};
ghost use Rattle.printout.specs.Line.{raw, letter, numbered, kind_words, instruction_line, refusal_line};
ghost use Rattle.printout.specs.Internal.Item.{variables_line, thread_line};
ghost use Rattle.printout.specs.Internal.Writing.{WrittenLine};

use crate::text::LineText;
use program::instruction::Instruction;
use program::refusal::Refusal;
use program::variable::Kind;

// A field of the head: its `size` bytes at an offset, its name, and a value of the caller's.
#[tactic(auto, using(crate::proofs::Digits::short_digits))]
pub fn field_line(
    file: &[u8],
    at: usize,
    size: usize,
    name: &[u8],
    value: usize,
    out: &mut [u8],
) -> usize
    requires { (at + size ≤ length file.now) × (size ≤ 2) × (length name.now ≤ 9) × (value < 100000) × (line_size ≤ length out.old) }
    ensures { WrittenLine (line_of (raw file.now at size ∷ name.now ∷ decimal value ∷ [])) out.old out.new result }
{
    let mut line = LineText::new();
    line.raw(file, at, size);
    line.name(name);
    line.number(value);
    line.write(out)
}

// A field of one byte: that byte, its name, its value.
#[inline]
pub fn head_line(file: &[u8], at: usize, name: &[u8], out: &mut [u8]) -> usize
    requires { (at < length file.now) × (length name.now ≤ 9) × (line_size ≤ length out.old) }
    ensures { WrittenLine (line_of (raw file.now at 1 ∷ name.now ∷ decimal (byte_at file.now at) ∷ [])) out.old out.new result }
{
    field_line(file, at, 1, name, usize::from(file[at]), out)
}

// The variable section's length field and the number of variables.
#[tactic(auto, unfolding(crate::specs::Internal::Item::variables_line, crate::specs::Text::ascii))]
#[inline]
pub fn variables_line(file: &[u8], variables: usize, out: &mut [u8]) -> usize
    requires { (records_start ≤ length file.now) × (variables < 10000) × (line_size ≤ length out.old) }
    ensures { WrittenLine (variables_line file.now variables) out.old out.new result }
{
    field_line(file, 3, 2, b"variables", variables, out)
}

// Variable v, its record at an offset.
#[tactic(auto, using(crate::proofs::Digits::short_digits, crate::proofs::Digits::word_digits))]
pub fn variable_line(
    file: &[u8],
    at: usize,
    v: u8,
    kind: Kind,
    initial: u32,
    out: &mut [u8],
) -> usize
    requires { (at + variable_size ≤ length file.now) × (line_size ≤ length out.old) }
    ensures { WrittenLine (line_of (raw file.now at 1 ∷ raw file.now (at + 1) 1 ∷ raw file.now (at + 2) 4 ∷ numbered "v" v ∷ kind_words kind ++ decimal initial ∷ [])) out.old out.new result }
{
    let mut line = LineText::new();
    line.raw(file, at, 1);
    line.raw(file, at + 1, 1);
    line.raw(file, at + 2, 4);
    line.lettered(b'v', v);
    line.kind(kind);
    line.number(initial as usize);
    line.write(out)
}

// Thread t: its code section's length field at an offset, and the number of its instructions.
#[tactic(auto, using(crate::proofs::Digits::short_digits))]
pub fn thread_line(file: &[u8], at: usize, t: usize, count: usize, out: &mut [u8]) -> usize
    requires { (at + 2 ≤ length file.now) × (t < 10000) × (count < 10000) × (line_size ≤ length out.old) }
    ensures { WrittenLine (thread_line file.now at t count) out.old out.new result }
{
    let mut line = LineText::new();
    line.raw(file, at, 2);
    line.name(b"thread");
    line.number(t);
    line.name(b"code");
    line.number(count);
    line.write(out)
}

// The instruction at a place, its bytes at an offset, with its report byte.
#[tactic(auto, using(crate::proofs::Digits::short_digits))]
pub fn instruction_line(
    file: &[u8],
    at: usize,
    place: usize,
    i: Instruction,
    byte: u8,
    out: &mut [u8],
) -> usize
    requires { (at + instruction_size ≤ length file.now) × (place < 10000) × (line_size ≤ length out.old) }
    ensures { WrittenLine (instruction_line file.now at place i byte) out.old out.new result }
{
    let mut line = LineText::new();
    line.raw(file, at, 1);
    line.raw(file, at + 1, 1);
    line.raw(file, at + 2, 1);
    line.raw(file, at + 3, 1);
    line.number(place);
    line.instruction(i);
    line.letter(byte);
    line.write(out)
}

// Thread t's whole, with its report byte.
#[tactic(auto, using(crate::proofs::Digits::short_digits))]
pub fn whole_line(t: usize, byte: u8, out: &mut [u8]) -> usize
    requires { (t < 10000) × (line_size ≤ length out.old) }
    ensures { WrittenLine (line_of (ascii "thread" ∷ decimal t ∷ letter byte ∷ [])) out.old out.new result }
{
    let mut line = LineText::new();
    line.name(b"thread");
    line.number(t);
    line.letter(byte);
    line.write(out)
}

// Why a file is refused.
#[tactic(auto, using(crate::proofs::Digits::short_digits, crate::proofs::Digits::size_digits))]
pub fn refusal_line(r: Refusal, out: &mut [u8]) -> usize
    requires { line_size ≤ length out.old }
    ensures { WrittenLine (refusal_line r) out.old out.new result }
{
    let mut line = LineText::new();
    line.name(b"refused");
    line.number(r.number());
    line.name(b"at");
    line.number(r.detail());
    line.write(out)
}
