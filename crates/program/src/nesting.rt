// Nesting (the standard, "The file": from "A place is an instruction's index in its thread" on): a scan with a stack of open entries.
ghost use Rattle.std.specs.Prelude.{◌≡◌, ℕ, ◌+◌, ◌*◌, ◌^◌, ◌<◌, List, eqb, length, ltb};
ghost use Rattle.std.specs.List.{slice_get};
ghost use Rattle.program.specs.Limits.{entry_limit};
ghost use Rattle.program.specs.Nesting.{opening, at_else, at_again, at_end, nest};
ghost use Rattle.program.specs.Nesting as Nesting;
ghost use Rattle.program.specs.Internal.Change.{changed, innermost_place, numbered_form, Fulfils, Innermost, Room};
ghost use Rattle.program.specs.Internal.Rows.{row_form};

use crate::instruction::Row;
use crate::limits::ENTRY_LIMIT;
use crate::stack::Stack;

// The entries that openers open. Each names the place of its closer.
#[derive(Clone, Copy)]
pub enum Entry {
    // Of an IF: the place of its ELSE.
    Then(usize),
    // Of an ELSE: the place of its END.
    Else(usize),
    // Of a WHILE: the place of its AGAIN, and its distance.
    Loop(usize, usize),
    // Of an ATOMIC: the place of its END.
    Block(usize),
}

impl Entry {
    // The place that it names.
    #[tactic(auto, unfolding(crate::specs::Nesting::named))]
    pub fn named(self) -> usize
        ensures { result ≡ Nesting.named self }
    {
        match self {
            Entry::Then(w) | Entry::Else(w) | Entry::Loop(w, _) | Entry::Block(w) => w,
        }
    }
}

// What a well nested opener or closer does to the open entries.
#[derive(Clone, Copy)]
pub enum Change {
    Push(Entry),
    Replace(Entry),
    Pop,
}

impl Change {
    pub fn make(self, entries: &mut Stack<Entry>)
        requires { Room self entries.old }
        ensures { entries.new ≡ changed self entries.old }
    {
        match self {
            Change::Push(e) => entries.push(e),
            Change::Replace(e) => entries.replace_top(e),
            Change::Pop => entries.pop(),
        }
    }
}

// The distance of an opener or a closer, by its fields b and c.
pub fn distance(b: u8, c: u8) -> usize
    ensures { (result ≡ b * 256 + c) × (result < 65536) }
{
    usize::from(u16::from_be_bytes([b, c]))
}

// The place that the innermost entry names; where none is open, the code's end, at which no instruction stands.
pub fn innermost_place(entries: &Stack<Entry>, end: usize) -> usize
    ensures { result ≡ innermost_place end entries.now }
{
    match entries.top() {
        Some(e) => e.named(),
        None => end,
    }
}

// The functions below speak of an opener or a closer at place p with distance n. Of the open entries they take the innermost, `top`, and
// whether there is room for another. `here` says whether the innermost entry names p: the walk keeps the named place in a number, and says
// there why. So each contract has as premises that these are what they say, of any entries, for any end of the code after p.

// IF, WHILE and ATOMIC: "another instruction stands at the innermost named place", "a distance is 0", "a 17th entry opens".
#[tactic(auto, unfolding(crate::specs::Nesting::opening), using(crate::proofs::Scan::place_unnamed))]
fn at_opener(p: usize, here: bool, n: usize, e: Entry, room: bool) -> Option<Change>
    ensures { (end : ℕ) (es : List Entry) → p < end → here ≡ eqb (innermost_place end es) p → room ≡ ltb (length es) entry_limit
        → Fulfils result es (opening p n e es) }
{
    if !here & (n != 0) & room {
        return Some(Change::Push(e));
    }
    None
}

// "ELSE must stand at the place its IF named and puts the place of its END there instead."
#[tactic(auto, unfolding(crate::specs::Nesting::at_else, crate::specs::Nesting::named))]
fn at_else(p: usize, here: bool, n: usize, top: Option<Entry>) -> Option<Change>
    requires { (p < 2 ^ 62) × (n < 65536) }
    ensures { (end : ℕ) (es : List Entry) → p < end → here ≡ eqb (innermost_place end es) p → top ≡ slice_get es 0
        → Fulfils result es (at_else p n es) }
{
    match top {
        Some(Entry::Then(_)) if here & (n != 0) => Some(Change::Replace(Entry::Else(p + n))),
        _ => None,
    }
}

// "AGAIN's n differs from its WHILE's". (at_again and at_end differ in little and stay two: there is one for each sentence of the standard, and
// each has its own test.)
#[tactic(auto, unfolding(crate::specs::Nesting::at_again, crate::specs::Nesting::named))]
fn at_again(here: bool, n: usize, top: Option<Entry>) -> Option<Change>
    ensures { (p end : ℕ) (es : List Entry) → p < end → here ≡ eqb (innermost_place end es) p → top ≡ slice_get es 0
        → Fulfils result es (at_again p n es) }
{
    match top {
        Some(Entry::Loop(_, m)) if here & (n != 0) & (n == m) => Some(Change::Pop),
        _ => None,
    }
}

// The closer of an ELSE or an ATOMIC.
#[tactic(auto, unfolding(crate::specs::Nesting::at_end, crate::specs::Nesting::named))]
fn at_end(here: bool, top: Option<Entry>) -> Option<Change>
    ensures { (p end : ℕ) (es : List Entry) → p < end → here ≡ eqb (innermost_place end es) p → top ≡ slice_get es 0
        → Fulfils result es (at_end p es) }
{
    match top {
        Some(Entry::Else(_) | Entry::Block(_)) if here => Some(Change::Pop),
        _ => None,
    }
}

// What the opener or closer of a row with distance n does at place p, where `here` says whether the innermost entry names it; none: nesting
// is broken there.
#[tactic(auto, unfolding(crate::specs::Nesting::nest, crate::specs::View::form_of))]
pub fn change_at(p: usize, here: bool, row: Row, n: usize, entries: &Stack<Entry>) -> Option<Change>
    requires { (p < 2 ^ 62) × (n < 65536) }
    ensures { (a end : ℕ) → p < end → here ≡ eqb (innermost_place end entries.now) p
        → Fulfils result entries.now (nest p (row_form row a n) entries.now) }
{
    match row {
        Row::If => at_opener(p, here, n, Entry::Then(p + n), entries.has_room()),
        Row::Else => at_else(p, here, n, entries.top()),
        Row::While => at_opener(p, here, n, Entry::Loop(p + n, n), entries.has_room()),
        Row::Again => at_again(here, n, entries.top()),
        Row::Atomic => at_opener(p, here, n, Entry::Block(p + n), entries.has_room()),
        _ => at_end(here, entries.top()),
    }
}

// What that of the row with a number does, where e is the innermost open entry, if there is one, `place` what it names, and `depth` how many
// are open. (There are two, since change_at asks the stack for no more than a row needs: taking the innermost entry before the match, reading
// openers and closers took a tenth more instructions.)
pub fn turn_at(p: usize, row: u8, n: usize, place: usize, e: Entry, depth: usize) -> Option<Change>
    requires { (p < 2 ^ 62) × (n < 65536) }
    ensures { (a : ℕ) (es : List Entry) → Innermost p (eqb place p) e es → length es ≡ depth
        → Fulfils result es (nest p (numbered_form row a n) es) }
{
    let here = place == p;
    let top = (depth != 0).then_some(e);
    let room = depth < ENTRY_LIMIT;
    match row {
        10 => at_opener(p, here, n, Entry::Then(p + n), room),
        11 => at_else(p, here, n, top),
        12 => at_opener(p, here, n, Entry::Loop(p + n, n), room),
        13 => at_again(here, n, top),
        14 => at_opener(p, here, n, Entry::Block(p + n), room),
        _ => at_end(here, top),
    }
}
