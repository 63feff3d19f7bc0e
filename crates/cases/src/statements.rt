// The standard, "Cases" and "Mistakes that look reasonable": what a block states. Names say what the block is, then what it states.
use crate::code::{END, GIVE, GUARDED, OPEN, READ, TAKE, WRITE, stating_to};
use crate::{code, show};
use atomicity::Atomicity;
use std::io;

// "A true statement of B, .. of L, .. of R, .. of A."
pub fn true_statements(rt: &impl Print) -> io::Result<()> {
    code::judge(
        rt,
        "B, states B: ",
        GUARDED,
        &[stating_to(Atomicity::Both, 1), END],
    )?;
    let left = [TAKE, stating_to(Atomicity::Left, 2), GIVE, END];
    code::judge(rt, "L, states L: ", GUARDED, &left)?;
    let right = [stating_to(Atomicity::Right, 2), TAKE, END, GIVE];
    code::judge(rt, "R, states R: ", GUARDED, &right)?;
    let atomic = [
        stating_to(Atomicity::Atomic, 5),
        TAKE,
        READ,
        WRITE,
        GIVE,
        END,
    ];
    code::judge(rt, "A, states A: ", GUARDED, &atomic)
}

// "A false statement: 18 at the block's END": one above the atomicity, one below it, one beside it.
pub fn false_statements(rt: &impl Print) -> io::Result<()> {
    code::judge(
        rt,
        "B, states A: ",
        GUARDED,
        &[stating_to(Atomicity::Atomic, 1), END],
    )?;
    let below = [stating_to(Atomicity::Both, 3), TAKE, GIVE, END];
    code::judge(rt, "A, states B: ", GUARDED, &below)?;
    let beside = [TAKE, stating_to(Atomicity::Right, 2), GIVE, END];
    code::judge(rt, "L, states R: ", GUARDED, &beside)
}

// "13 before 18": a block that is T. "The inner statement false: 18 at the inner END". "T cannot be stated: field a of 5 is a 7".
pub fn other_offences(rt: &impl Print) -> io::Result<()> {
    let top = [stating_to(Atomicity::Atomic, 3), WRITE, WRITE, END];
    code::judge(rt, "T, states A: ", OPEN, &top)?;
    let inner = [
        stating_to(Atomicity::Atomic, 5),
        stating_to(Atomicity::Atomic, 2),
        TAKE,
        END,
        GIVE,
        END,
    ];
    code::judge(rt, "A, states A, around R, states A: ", GUARDED, &inner)?;
    code::judge(
        rt,
        "B, states T: ",
        GUARDED,
        &[stating_to(Atomicity::Top, 1), END],
    )
}

// "An ATOMIC shows the letter that it states after the distance, and nothing for 0".
pub fn shown(rt: &impl Print) -> io::Result<()> {
    let stated =
        b"\x01\x01\x01\x00\x00\x00\x10\x34\x04\x00\x03\x20\x00\x00\x00\x21\x00\x00\x00\x35\x00\x00\x00";
    show::line(rt, "states A, its line: ", stated, 5)?;
    let unstated =
        b"\x01\x01\x01\x00\x00\x00\x10\x34\x00\x00\x03\x20\x00\x00\x00\x21\x00\x00\x00\x35\x00\x00\x00";
    show::line(rt, "states nothing, its line: ", unstated, 5)
}
