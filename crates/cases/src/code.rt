// Files of one thread with one lock and one variable: 13 bytes of head, then the code, at most 34 instructions.
ghost use Rattle.std.specs.Prelude.{◌≤◌, length};

use crate::show;
use atomicity::Atomicity;
use std::io;

// The kind bytes that are used, as the standard has them: a case does not lean on program's Kind, which it tests.
pub const GUARDED: u8 = 0;

pub const OPEN: u8 = 3;

// Instructions: r2, v0 and k0 where they name one.
pub const READ: [u8; 4] = [0x10, 2, 0, 0];

pub const WRITE: [u8; 4] = [0x11, 2, 0, 0];

pub const TAKE: [u8; 4] = [0x20, 0, 0, 0];

pub const GIVE: [u8; 4] = [0x21, 0, 0, 0];

pub const END: [u8; 4] = [0x35, 0, 0, 0];

// Op codes of instructions that name a distance; a loop or a choice looks at r0. Bytes of files, as the kinds are: cases hold bytes that no
// enum has, and do not lean on program's table of op codes, which they test.
pub const IF: u8 = 0x30;

pub const ELSE: u8 = 0x31;

pub const WHILE: u8 = 0x32;

pub const AGAIN: u8 = 0x33;

pub const ATOMIC: u8 = 0x34;

// The instruction with this op code and distance.
pub fn to(op: u8, n: u8) -> [u8; 4] {
    [op, 0, 0, n]
}

// An ATOMIC that states this atomicity.
pub fn stating_to(stated: Atomicity, n: u8) -> [u8; 4] {
    [ATOMIC, stated.report_byte(), 0, n]
}

// Judges the file with this code and a variable of this kind.
pub fn judge(rt: &impl Print, name: &str, kind: u8, code: &[[u8; 4]]) -> io::Result<()>
    requires { length code.now ≤ 34 }
{
    // The file is its first `size` bytes: an array and a number, since `write` sets the bytes at their offsets in the file, as the standard
    // gives them.
    let mut file = [0u8; 149];
    let size = write(kind, code, &mut file);
    show::judge(rt, name, &file[..size])
}

// Version 1, one lock, one thread, one variable (its kind, g 0, initial value 5), then the code section; answers the file's length.
fn write(kind: u8, code: &[[u8; 4]], file: &mut [u8; 149]) -> usize
    requires { length code.now ≤ 34 }
    ensures { result ≤ 149 }
{
    let size = 4 * code.len();
    file[..13].copy_from_slice(&[1, 1, 1, 0, 6, kind, 0, 0, 0, 0, 5, 0, size as u8]);
    for (i, word) in code.iter().enumerate() {
        let at = 13 + 4 * i;
        file[at..at + 4].copy_from_slice(word);
    }
    13 + size
}
