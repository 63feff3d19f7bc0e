// The public calls, and what they answer: the case's name, then a report, counts and state, a line, or a refusal. (The handle that prints
// and the name stand first in each, as in a print; a struct of both would be made at each call.)
use machine::counts::Counts;
use machine::thread::Thread;
use program::limits::{LINE_SIZE, REPORT_LIMIT};
use program::refusal::Refusal;
use std::fmt::Display;
use std::io;

pub fn judge(rt: &impl Print, name: &str, file: &[u8]) -> io::Result<()> {
    print!(rt; "{name}")?;
    let mut report = [0u8; REPORT_LIMIT];
    match hogunlas::judge(file, &mut report) {
        Err(refusal) => refused(rt, refusal),
        Ok(n) => {
            print!(rt; "report")?;
            values(rt, first(&report, n))?;
            println!(rt; "")
        }
    }
}

// The counts of each thread, then the whole buffer that was lent.
pub fn run(
    rt: &impl Print,
    name: &str,
    file: &[u8],
    list: &[u8],
    state: &mut [u8],
) -> io::Result<()> {
    print!(rt; "{name}")?;
    match hogunlas::run(file, list, state) {
        Err(refusal) => refused(rt, refusal),
        Ok(threads) => {
            counts(rt, &threads)?;
            print!(rt; ", buffer")?;
            values(rt, state)?;
            println!(rt; "")
        }
    }
}

pub fn line(rt: &impl Print, name: &str, file: &[u8], i: usize) -> io::Result<()> {
    print!(rt; "{name}")?;
    let mut out = [0u8; LINE_SIZE];
    match hogunlas::line(file, i, &mut out) {
        Err(refusal) => refused(rt, refusal),
        Ok(n) => rt.write_all(first(&out, n)),
    }
}

// One report byte.
pub fn byte(rt: &impl Print, name: &str, of: u8) -> io::Result<()> {
    println!(rt; "{name}{of}")
}

// A thread: its place, then its registers.
pub fn thread(rt: &impl Print, name: &str, th: &Thread) -> io::Result<()> {
    print!(rt; "{name}place {}, registers", th.place)?;
    values(rt, &th.registers)?;
    println!(rt; "")
}

// The first n bytes, or all if there are fewer.
fn first(of: &[u8], n: usize) -> &[u8] {
    &of[..n.min(of.len())]
}

fn refused(rt: &impl Print, refusal: Refusal) -> io::Result<()> {
    println!(rt; "refused {} at {}", refusal.number(), refusal.detail())
}

// Moved, waiting and idle of each thread.
fn counts(rt: &impl Print, threads: &[Counts]) -> io::Result<()> {
    print!(rt; "counts")?;
    for of in threads {
        print!(rt; " {}/{}/{}", of.moved, of.waiting, of.idle)?;
    }
    Ok(())
}

// Each value, a blank before it.
fn values<T: Display>(rt: &impl Print, of: &[T]) -> io::Result<()> {
    for value in of {
        print!(rt; " {value}")?;
    }
    Ok(())
}
