// The program `bench` (the standard, "Line and bench"): reads a file from standard input, judges it once, and prints all lines of its
// printout, or why it is refused. What it prints is what `output` ensures; no contract can speak of reading and writing themselves.
#![tactic(auto)]

mod output;

ghost use Rattle.std.specs.Prelude.{◌≤◌, length};

use crate::output::output;
use program::limits::{BENCH_LIMIT, OUTPUT_LIMIT};
use std::io::Read;

// Reads until the buffer is full, the input ends or a read fails; answers how many bytes it put at the front of the buffer. A failed read
// ends the input as its end does, since the standard gives bench one exit status. A `while`, since how many reads there will be is not
// known before.
fn read_full(input: &mut impl Read, buffer: &mut [u8]) -> usize
    ensures { result ≤ length buffer.new }
{
    let mut done = 0;
    while done < buffer.len() {
        let n = input.read(&mut buffer[done..]).unwrap_or(0);
        if n == 0 {
            break;
        }
        done += n;
    }
    done
}

fn main(rt: HostRuntime) {
    // "It reads at most 33,174 bytes; more can't alter the answer."
    let mut input = [0u8; BENCH_LIMIT];
    let n = read_full(&mut rt.stdin(), &mut input);
    let mut text = [0u8; OUTPUT_LIMIT];
    let m = output(&input[..n], &mut text);
    // A write that fails loses the output: the standard gives the program one exit status.
    let _ = rt.write_all(&text[..m]);
}
