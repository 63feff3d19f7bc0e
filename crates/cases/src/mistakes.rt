// The standard, "Mistakes that look reasonable": what is right instead. That a thread at its ATOMIC is not inside the block, and a thread at
// the END still is, shows in no answer of a call.
use crate::code::{
    AGAIN, ATOMIC, ELSE, END, GIVE, GUARDED, IF, OPEN, READ, TAKE, WHILE, WRITE, to,
};
use crate::{code, show};
use atomicity::Atomicity;
use std::io;

// A;A is T: each WRITE of an open variable is A, the thread T, and a block of both is refused.
pub fn atomic_then_atomic(rt: &impl Print) -> io::Result<()> {
    code::judge(rt, "A;A: ", OPEN, &[WRITE, WRITE])?;
    code::judge(
        rt,
        "A;A in a block: ",
        OPEN,
        &[to(ATOMIC, 3), WRITE, WRITE, END],
    )
}

// The closure of A is T.
pub fn closure_of_atomic(rt: &impl Print) -> io::Result<()> {
    code::judge(
        rt,
        "WHILE around A: ",
        OPEN,
        &[to(WHILE, 2), WRITE, to(AGAIN, 2)],
    )?;
    let code = [to(ATOMIC, 4), to(WHILE, 2), WRITE, to(AGAIN, 2), END];
    code::judge(rt, "WHILE around A in a block: ", OPEN, &code)
}

// L joined with R is A. No file shows it: the parts of an IF that are L and R end with different sets.
pub fn left_joined_with_right(rt: &impl Print) -> io::Result<()> {
    let joined = Atomicity::Left.join(Atomicity::Right);
    show::byte(rt, "L joined with R: ", joined.report_byte())
}

// The else part starts with the set at the IF: it may TAKE what the then part took, and may not READ under the then part's lock.
pub fn locks_of_the_then_part(rt: &impl Print) -> io::Result<()> {
    let both = [to(IF, 2), TAKE, to(ELSE, 2), TAKE, END, GIVE];
    code::judge(rt, "both parts TAKE: ", GUARDED, &both)?;
    let one = [to(IF, 3), TAKE, READ, to(ELSE, 2), READ, END, GIVE];
    code::judge(rt, "the else part READs without TAKE: ", GUARDED, &one)
}

// A READ of an open variable is A only because another thread has a WRITE of it: a thread's own does not count, and one before, one
// behind and one that is not reached do. Files of two threads have no lock, and READ r2 v0 or WRITE r2 v0 in each; the one that is not reached
// stands behind IF r0 2.
pub fn writers_of_an_open_variable(rt: &impl Print) -> io::Result<()> {
    code::judge(rt, "READ with an own WRITE: ", OPEN, &[READ, WRITE])?;
    let behind =
        b"\x01\x00\x02\x00\x06\x03\x00\x00\x00\x00\x05\x00\x04\x10\x02\x00\x00\x00\x04\x11\x02\x00\x00";
    show::judge(rt, "READ with a WRITE in the next thread: ", behind)?;
    let before =
        b"\x01\x00\x02\x00\x06\x03\x00\x00\x00\x00\x05\x00\x04\x11\x02\x00\x00\x00\x04\x10\x02\x00\x00";
    show::judge(rt, "READ with a WRITE in the thread before: ", before)?;
    let not_reached =
        b"\x01\x00\x02\x00\x06\x03\x00\x00\x00\x00\x05\x00\x04\x10\x02\x00\x00\x00\x10\x30\x00\x00\x02\x11\x02\x00\x00\x31\x00\x00\x01\x35\x00\x00\x00";
    show::judge(rt, "READ with a WRITE that is not reached: ", not_reached)
}

// Where one thread alone writes, its own READ is B and another thread's is A, and its WRITEs are A: a block of two is refused.
pub fn one_writer(rt: &impl Print) -> io::Result<()> {
    let reads =
        b"\x01\x00\x02\x00\x06\x03\x00\x00\x00\x00\x05\x00\x08\x11\x02\x00\x00\x10\x02\x00\x00\x00\x04\x10\x02\x00\x00";
    show::judge(rt, "one writer, and READs of both threads: ", reads)?;
    let writes =
        b"\x01\x00\x02\x00\x0C\x03\x00\x00\x00\x00\x05\x03\x00\x00\x00\x00\x05\x00\x10\x34\x00\x00\x03\x11\x00\x00\x00\x11\x00\x01\x00\x35\x00\x00\x00\x00\x08\x10\x00\x00\x00\x10\x01\x01\x00";
    show::judge(rt, "one writer, and a block of two WRITEs: ", writes)
}
