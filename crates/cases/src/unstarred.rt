// The standard, "Cases": those without a star.
use crate::code::{AGAIN, ATOMIC, END, GIVE, GUARDED, READ, TAKE, WHILE, to};
use crate::{code, show};
use std::io;

// "Empty file, 1 at 0."
pub fn empty_file(rt: &impl Print) -> io::Result<()> {
    show::judge(rt, "empty file, judge: ", b"")?;
    let mut state = [255u8; 1];
    show::run(rt, "empty file, run: ", b"", b"", &mut state)?;
    show::line(rt, "empty file, line: ", b"", 0)
}

// "Empty list: the start state", here of the standard's example file. The buffer is a byte longer than the state.
pub fn empty_list(rt: &impl Print) -> io::Result<()> {
    let file =
        b"\x01\x01\x01\x00\x06\x00\x00\x00\x00\x00\x05\x00\x0C\x20\x00\x00\x00\x10\x02\x00\x00\x21\x00\x00\x00";
    let mut state = [255u8; 40];
    show::run(rt, "empty list: ", file, b"", &mut state)
}

// "Each entry counts for its own thread": two threads TAKE k0, GIVE k0, and one whose code is empty.
pub fn own_counts(rt: &impl Print) -> io::Result<()> {
    let file =
        b"\x01\x01\x03\x00\x00\x00\x08\x20\x00\x00\x00\x21\x00\x00\x00\x00\x08\x20\x00\x00\x00\x21\x00\x00\x00\x00\x00";
    let mut state = [255u8; 104];
    show::run(
        rt,
        "own counts: ",
        file,
        b"\x00\x01\x02\x01\x02\x00\x01",
        &mut state,
    )
}

// Seventeen WHILEs, each the body of the one before, and their AGAINs.
fn seventeen_entries() -> [[u8; 4]; 34] {
    let mut code = [END; 34];
    for place in 0..17u8 {
        let n = 33 - 2 * place;
        code[place as usize] = to(WHILE, n);
        code[33 - place as usize] = to(AGAIN, n);
    }
    code
}

// "16 entries open pass": the body of the outermost of seventeen.
pub fn sixteen_entries(rt: &impl Print) -> io::Result<()> {
    let code = seventeen_entries();
    code::judge(rt, "16 entries open: ", GUARDED, &code[1..33])
}

// "the 17th gives 8", at its offset.
pub fn seventeenth_entry(rt: &impl Print) -> io::Result<()> {
    let code = seventeen_entries();
    code::judge(rt, "17 entries open: ", GUARDED, &code)
}

// In the example file "READ put before TAKE: 9 at 13."
pub fn read_before_take(rt: &impl Print) -> io::Result<()> {
    code::judge(rt, "READ before TAKE: ", GUARDED, &[READ, TAKE, GIVE])
}

// "A WHILE around TAKE, GIVE: T outside a block", in the report and in the printout's last line.
pub fn repeated_outside_a_block(rt: &impl Print) -> io::Result<()> {
    let file =
        b"\x01\x01\x01\x00\x00\x00\x10\x32\x00\x00\x03\x20\x00\x00\x00\x21\x00\x00\x00\x33\x00\x00\x03";
    show::judge(rt, "WHILE around TAKE, GIVE: ", file)?;
    show::line(rt, "WHILE around TAKE, GIVE, last line: ", file, 9)
}

// "13 within one", at the block's END.
pub fn repeated_within_a_block(rt: &impl Print) -> io::Result<()> {
    let code = [to(ATOMIC, 5), to(WHILE, 3), TAKE, GIVE, to(AGAIN, 3), END];
    code::judge(rt, "WHILE around TAKE, GIVE in a block: ", GUARDED, &code)
}
