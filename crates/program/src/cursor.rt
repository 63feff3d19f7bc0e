// Reading a field of the file (the standard, "The file").
ghost use Rattle.std.specs.Prelude.{◌≡◌, ◌+◌, ◌≤◌, ◌<◌, length, leb};
ghost use Rattle.program.specs.Answer.{require};
ghost use Rattle.program.specs.Field.{byte_at, pair_at, cursor, present, byte_field, pair_field};
ghost use Rattle.program.specs.Field as Fields;

use crate::refusal::Refusal;

// The offset of the next byte to read: a type of its own, so that it is not taken for a number that was read.
#[derive(Clone, Copy, PartialEq, Eq)]
pub struct Cursor {
    pub at: usize,
}

// The number of one byte, and of two, at an offset.
pub fn byte_at(s: &[u8], at: usize) -> usize
    requires { at < length s.now }
    ensures { (result ≡ byte_at s.now at) × (result < 256) }
{
    usize::from(s[at])
}

pub fn pair_at(s: &[u8], at: usize) -> usize
    requires { at + 2 ≤ length s.now }
    ensures { (result ≡ pair_at s.now at) × (result < 65536) }
{
    usize::from(u16::from_be_bytes([s[at], s[at + 1]]))
}

// Whether n bytes are there from an offset on.
pub fn has_bytes(s: &[u8], at: usize, n: usize) -> bool
    ensures { result ≡ leb (at + n) (length s.now) }
{
    match at.checked_add(n) {
        Some(end) => end <= s.len(),
        None => false,
    }
}

// The cursor past n bytes; missing ones refuse.
#[tactic(auto, unfolding(crate::specs::Field::present))]
pub fn past(s: &[u8], at: usize, n: usize) -> Result<Cursor, Refusal>
    ensures { result ≡ require (present s.now (cursor at) n) (Refusal.Missing (length s.now)) (Ok (cursor (at + n))) }
{
    if !has_bytes(s, at, n) {
        return Err(Refusal::Missing(s.len()));
    }
    Ok(Cursor { at: at + n })
}

// A field of one byte, and of two: two functions of the file and a cursor, as the definitions are.
#[tactic(auto, unfolding(crate::specs::Field::byte_field, crate::specs::Field::present))]
pub fn byte_field(s: &[u8], c: Cursor) -> Result<(usize, Cursor), Refusal>
    ensures { result ≡ byte_field s.now c }
{
    let end = past(s, c.at, 1)?;
    Ok((byte_at(s, c.at), end))
}

#[tactic(auto, unfolding(crate::specs::Field::pair_field, crate::specs::Field::present))]
pub fn pair_field(s: &[u8], c: Cursor) -> Result<(usize, Cursor), Refusal>
    ensures { result ≡ pair_field s.now c }
{
    let end = past(s, c.at, 2)?;
    Ok((pair_at(s, c.at), end))
}

// A section's head: its number of records, and the cursor at the first.
#[tactic(auto, unfolding(crate::specs::Field::section))]
pub fn section(s: &[u8], c: Cursor, size: usize, limit: usize) -> Result<(usize, Cursor), Refusal>
    requires { 0 < size }
    ensures { result ≡ Fields.section size limit s.now c }
{
    let (n, first) = pair_field(s, c)?;
    if n % size != 0 || limit < n {
        return Err(Refusal::Length(c.at));
    }
    past(s, first.at, n)?;
    Ok((n / size, first))
}
