// The line under way, and the words that are written to it, each with a blank after it; the last word's blank becomes the newline.
ghost use Rattle.std.specs.Prelude.{◌≡◌, [], ◌∷◌, ◌++◌, ◌+◌, ◌*◌, ◌≤◌, ◌<◌, length, List, ℕ};
ghost use Rattle.program.specs.Limits.{line_size};
ghost use Rattle.printout.specs.Text.{hex_digit, decimal, line_of};
ghost use Rattle.printout.specs.Line.{letter, raw};
ghost use Rattle.printout.specs.Internal.Writing.{blanked, lettered, Laid, WrittenLine};

pub use crate::placed::{byte_at, copy_at, letter_at, lettered_at, number_at, raw_at, short_at};
use arrayvec::ArrayVec;
use program::limits::LINE_SIZE;

// Its bytes so far. Each method that writes a word ensures that word behind the ones before, and its room.
// Hexadecimal, decimal and letters are pushed by hand: a line by the library's `write!` was tried and took four times as long, with which
// bench would miss its bar of speed.
#[derive(Drop)]
pub struct LineText {
    bytes: ArrayVec<u8, LINE_SIZE>,
}

// A capital hexadecimal digit.
#[tactic(auto, unfolding(crate::specs::Text::hex_digit))]
pub(crate) fn hex_digit(d: u8) -> u8
    requires { d < 16 }
    ensures { result ≡ hex_digit d }
{
    if d < 10 { b'0' + d } else { b'A' - 10 + d }
}

impl LineText {
    pub fn new() -> Self
        ensures { result.bytes.items ≡ [] }
    {
        LineText {
            bytes: ArrayVec::new(),
        }
    }

    // A fixed text.
    #[tactic(auto, unfolding(crate::specs::Internal::Writing::blanked, crate::specs::Internal::Writing::ended))]
    #[inline]
    pub fn name(&mut self, word: &[u8])
        requires { length self.old.bytes.items + length word.now + 1 ≤ line_size }
        ensures word { self.new.bytes.items ≡ self.old.bytes.items ++ blanked (word.now ∷ []) }
        ensures room { length self.new.bytes.items ≡ length self.old.bytes.items + length word.now + 1 }
    {
        for byte in word {
            self.bytes.push(*byte);
        }
        self.bytes.push(b' ');
    }

    // `n` raw bytes of the file from an offset on, as two hexadecimal digits each. The offset and not a slice, as in the definition, which
    // callers' clauses name.
    #[tactic(auto, unfolding(crate::specs::Internal::Writing::blanked, crate::specs::Internal::Writing::ended, crate::specs::Line::raw, crate::specs::Text::hex))]
    #[inline]
    pub fn raw(&mut self, file: &[u8], from: usize, n: usize)
        requires { (from + n ≤ length file.now) × (length self.old.bytes.items + 2 * n + 1 ≤ line_size) }
        ensures word { self.new.bytes.items ≡ self.old.bytes.items ++ blanked (raw file.now from n ∷ []) }
        ensures room { length self.new.bytes.items ≡ length self.old.bytes.items + 2 * n + 1 }
    {
        for byte in &file[from..from + n] {
            self.bytes.push(hex_digit(*byte / 16));
            self.bytes.push(hex_digit(*byte % 16));
        }
        self.bytes.push(b' ');
    }

    // The decimal digits of a number, the first ones before the last: a recursion, since the definition is one, and a loop has the last
    // digit first.
    #[tactic(auto, using(crate::proofs::Digits::decimal_small, crate::proofs::Digits::decimal_large, crate::proofs::Digits::decimal_large_length))]
    fn digits(&mut self, n: usize)
        requires { length self.old.bytes.items + length (decimal n) ≤ line_size }
        ensures { self.new.bytes.items ≡ self.old.bytes.items ++ decimal n }
    {
        if n < 10 {
            return self.bytes.push(b'0' + n as u8);
        }
        self.digits(n / 10);
        self.bytes.push(b'0' + (n % 10) as u8);
    }

    // A number.
    #[tactic(auto, unfolding(crate::specs::Internal::Writing::blanked, crate::specs::Internal::Writing::ended))]
    #[inline]
    pub fn number(&mut self, n: usize)
        requires { length self.old.bytes.items + length (decimal n) + 1 ≤ line_size }
        ensures word { self.new.bytes.items ≡ self.old.bytes.items ++ blanked (decimal n ∷ []) }
        ensures room { length self.new.bytes.items ≡ length self.old.bytes.items + length (decimal n) + 1 }
    {
        self.digits(n);
        self.bytes.push(b' ');
    }

    // A letter and a number of one byte: a register, a variable, a lock or a thread.
    #[tactic(auto, using(crate::proofs::Digits::byte_digits), unfolding(crate::specs::Internal::Writing::blanked, crate::specs::Internal::Writing::ended, crate::specs::Internal::Writing::lettered))]
    #[inline]
    pub fn lettered(&mut self, letter: u8, n: u8)
        requires { length self.old.bytes.items + 5 ≤ line_size }
        ensures word { self.new.bytes.items ≡ self.old.bytes.items ++ blanked (lettered letter n ∷ []) }
        ensures room { length self.new.bytes.items ≤ length self.old.bytes.items + 5 }
    {
        self.bytes.push(letter);
        self.number(usize::from(n));
    }

    // The letter of a report byte: "atomicity, `-` at closers". A byte above 5 has none. A number, since a report is an array of bytes
    // that C's callers read, and a closer's byte is no atomicity's.
    #[tactic(auto, unfolding(crate::specs::Internal::Writing::blanked, crate::specs::Internal::Writing::ended, crate::specs::Line::letter, crate::specs::Text::ascii))]
    #[inline]
    pub fn letter(&mut self, byte: u8)
        requires { length self.old.bytes.items + 2 ≤ line_size }
        ensures word { self.new.bytes.items ≡ self.old.bytes.items ++ blanked (letter byte ∷ []) }
        ensures room { length self.new.bytes.items ≤ length self.old.bytes.items + 2 }
    {
        if let Some(letter) = b"-BLRAT".get(byte as usize) {
            self.bytes.push(*letter);
        }
        self.bytes.push(b' ');
    }

    // Writes the line to the start of a lent buffer, the newline in place of its last blank; answers its length.
    #[inline]
    pub fn write(&mut self, out: &mut [u8]) -> usize
        requires { (length self.old.bytes.items ≤ line_size) × (line_size ≤ length out.old) }
        ensures { (word : List ℕ) (words : List (List ℕ)) → self.old.bytes.items ≡ blanked (word ∷ words) → WrittenLine (line_of (word ∷ words)) out.old out.new result }
    {
        self.bytes.pop();
        self.bytes.push(b'\n');
        let n = self.bytes.len();
        out[..n].copy_from_slice(self.bytes.as_slice());
        n
    }

    // Writes its bytes so far, the last word's blank too, at a position of a lent buffer of any length; answers the position after them.
    pub fn write_at(&self, out: &mut [u8], at: usize) -> usize
        requires { at + length self.now.bytes.items ≤ length out.old }
        ensures { Laid self.now.bytes.items at out.old out.new result }
    {
        let next = at + self.bytes.len();
        out[at..next].copy_from_slice(self.bytes.as_slice());
        next
    }
}
