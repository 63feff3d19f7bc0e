// Words at a position of a lent buffer, for callers that lay out a text of their own. The buffer may have any length; each function answers
// the position after what it wrote and keeps all other bytes; `end` is the byte behind the word. A word whose length has a bound is put
// together in a LineText, as those of the printout's lines are.
ghost use Rattle.std.specs.Prelude.{◌≡◌, [], ◌∷◌, ◌+◌, ◌*◌, ◌≤◌, ◌<◌, length, List, ℕ};
ghost use Rattle.printout.specs.Text.{decimal};
ghost use Rattle.printout.specs.Line.{raw, letter, kind_words, instruction_words};
ghost use Rattle.printout.specs.Internal.Writing.{blanked, lettered, LaidWord, LaidWords};

use crate::text::{LineText, hex_digit};
use program::instruction::Instruction;
use program::variable::Kind;

// A fixed text.
pub fn copy_at(out: &mut [u8], at: usize, word: &[u8], end: u8) -> usize
    requires { at + length word.now + 1 ≤ length out.old }
    ensures laid_word { LaidWord word.now end at out.old out.new result }
    ensures value { result ≡ at + length word.now + 1 }
{
    let next = at + word.len();
    out[at..next].copy_from_slice(word);
    out[next] = end;
    next + 1
}

// `n` raw bytes of the file from an offset on.
pub fn raw_at(out: &mut [u8], at: usize, file: &[u8], from: usize, n: usize, end: u8) -> usize
    requires { (from + n ≤ length file.now) × (at + 2 * n + 1 ≤ length out.old) }
    ensures laid_word { LaidWord (raw file.now from n) end at out.old out.new result }
    ensures value { result ≡ at + 2 * n + 1 }
{
    let mut next = at;
    for byte in &file[from..from + n] {
        out[next] = hex_digit(*byte / 16);
        out[next + 1] = hex_digit(*byte % 16);
        next += 2;
    }
    out[next] = end;
    next + 1
}

// The one word of a line, with `end` in place of its blank.
fn word_at(line: &LineText, out: &mut [u8], at: usize, end: u8) -> usize
    requires { (0 < length line.now.bytes.items) × (at + length line.now.bytes.items ≤ length out.old) }
    ensures laid_word { (word : List ℕ) → line.now.bytes.items ≡ blanked (word ∷ []) → LaidWord word end at out.old out.new result }
    ensures value { result ≡ at + length line.now.bytes.items }
{
    let next = line.write_at(out, at);
    out[next - 1] = end;
    next
}

// A number.
#[tactic(auto, using(crate::proofs::Digits::size_digits))]
pub fn number_at(out: &mut [u8], at: usize, n: usize, end: u8) -> usize
    requires { at + length (decimal n) + 1 ≤ length out.old }
    ensures laid_word { LaidWord (decimal n) end at out.old out.new result }
    ensures value { result ≡ at + length (decimal n) + 1 }
{
    let mut digits = LineText::new();
    digits.number(n);
    word_at(&digits, out, at, end)
}

// A letter and a number of one byte: a register, a variable, a lock or a thread.
pub fn lettered_at(out: &mut [u8], at: usize, letter: u8, n: u8, end: u8) -> usize
    requires { at + 5 ≤ length out.old }
    ensures laid_word { LaidWord (lettered letter n) end at out.old out.new result }
    ensures upper_bound { result ≤ at + 5 }
{
    let mut line = LineText::new();
    line.lettered(letter, n);
    word_at(&line, out, at, end)
}

// A number of at most five digits.
#[tactic(auto, using(crate::proofs::Digits::short_digits))]
pub fn short_at(out: &mut [u8], at: usize, n: usize, end: u8) -> usize
    requires { (n < 100000) × (at + 6 ≤ length out.old) }
    ensures laid_word { LaidWord (decimal n) end at out.old out.new result }
    ensures upper_bound { result ≤ at + 6 }
{
    number_at(out, at, n, end)
}

// A byte's value.
pub fn byte_at(out: &mut [u8], at: usize, n: u8, end: u8) -> usize
    requires { at + 6 ≤ length out.old }
    ensures laid_word { LaidWord (decimal n) end at out.old out.new result }
    ensures upper_bound { result ≤ at + 6 }
{
    short_at(out, at, usize::from(n), end)
}

// The letter of a report byte: "atomicity, `-` at closers". A byte above 5 has none.
pub fn letter_at(out: &mut [u8], at: usize, byte: u8, end: u8) -> usize
    requires { at + 2 ≤ length out.old }
    ensures laid_word { LaidWord (letter byte) end at out.old out.new result }
    ensures upper_bound { result ≤ at + 2 }
{
    let mut line = LineText::new();
    line.letter(byte);
    word_at(&line, out, at, end)
}

// The words of a variable's kind, each with a blank after it.
pub fn kind_words(out: &mut [u8], at: usize, kind: Kind) -> usize
    requires { at + 13 ≤ length out.old }
    ensures laid_words { LaidWords (kind_words kind) at out.old out.new result }
    ensures upper_bound { result ≤ at + 13 }
{
    let mut line = LineText::new();
    line.kind(kind);
    line.write_at(out, at)
}

// The words of an instruction, "name, its fields in byte order", each with a blank after it.
pub fn instruction_words(out: &mut [u8], at: usize, i: Instruction) -> usize
    requires { at + 21 ≤ length out.old }
    ensures laid_words { LaidWords (instruction_words i) at out.old out.new result }
    ensures upper_bound { result ≤ at + 21 }
{
    let mut line = LineText::new();
    line.instruction(i);
    line.write_at(out, at)
}
