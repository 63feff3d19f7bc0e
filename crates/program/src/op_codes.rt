// The row of each op code (the standard, "The file": the table of op codes), and of each number: a file of its own, in which the rows go by
// their short names.
use crate::instruction::ROW_COUNT;
use crate::instruction::Row::{
    self, Add, Again, Atomic, Copy, Else, End, Give, If, Less, Lesss, Mulh, Read, Set, Sub, Take,
    Unknown, While, Write,
};

const NO: Row = Unknown;

// By the byte. A static: a constant array that is indexed is built anew at each use.
pub static ROWS: [Row; 256] = [
    NO, Set, Copy, Add, Sub, Less, NO, Mulh, Lesss, NO, NO, NO, NO, NO, NO, NO, Read, Write, NO,
    NO, NO, NO, NO, NO, NO, NO, NO, NO, NO, NO, NO, NO, Take, Give, NO, NO, NO, NO, NO, NO, NO, NO,
    NO, NO, NO, NO, NO, NO, If, Else, While, Again, Atomic, End, NO, NO, NO, NO, NO, NO, NO, NO,
    NO, NO, NO, NO, NO, NO, NO, NO, NO, NO, NO, NO, NO, NO, NO, NO, NO, NO, NO, NO, NO, NO, NO, NO,
    NO, NO, NO, NO, NO, NO, NO, NO, NO, NO, NO, NO, NO, NO, NO, NO, NO, NO, NO, NO, NO, NO, NO, NO,
    NO, NO, NO, NO, NO, NO, NO, NO, NO, NO, NO, NO, NO, NO, NO, NO, NO, NO, NO, NO, NO, NO, NO, NO,
    NO, NO, NO, NO, NO, NO, NO, NO, NO, NO, NO, NO, NO, NO, NO, NO, NO, NO, NO, NO, NO, NO, NO, NO,
    NO, NO, NO, NO, NO, NO, NO, NO, NO, NO, NO, NO, NO, NO, NO, NO, NO, NO, NO, NO, NO, NO, NO, NO,
    NO, NO, NO, NO, NO, NO, NO, NO, NO, NO, NO, NO, NO, NO, NO, NO, NO, NO, NO, NO, NO, NO, NO, NO,
    NO, NO, NO, NO, NO, NO, NO, NO, NO, NO, NO, NO, NO, NO, NO, NO, NO, NO, NO, NO, NO, NO, NO, NO,
    NO, NO, NO, NO, NO, NO, NO, NO, NO, NO, NO, NO, NO, NO, NO, NO, NO, NO, NO, NO, NO, NO, NO, NO,
    NO, NO,
];

// By the number.
pub static IN_ORDER: [Row; ROW_COUNT] = [
    NO, Set, Copy, Add, Sub, Less, Read, Write, Take, Give, If, Else, While, Again, Atomic, End,
    Mulh, Lesss,
];
