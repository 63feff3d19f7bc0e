// The public calls (the standard, "The calls"): judge, run and line. None has a `requires`: bad input is refused, and each contract equates
// the result and the lent buffer afterwards with a definition of the whole call, refusals included (specs/Calls.antt).
#![tactic(auto)]

pub mod list;

ghost use Rattle.std.specs.Prelude.{◌≡◌, length};
ghost use Rattle.judge.specs.Demand.{Demand2};
ghost use Rattle.soundness.specs.Demand.{Demand3};
ghost use Rattle.hogunlas.specs.Internal.Opened.{OpenedFile};
ghost use Rattle.hogunlas.specs.Calls.{judge_answer, judge_buffer, judged_of, line_answer, line_buffer, printed_of, ran_of, run_answer, run_buffer};

use crate::list::first_bad_thread;
use judge::judging::judge_file;
use machine::counts::Counts;
use machine::run::run_list;
use printout::print::Printout;
use program::limits::{LINE_SIZE, LIST_LIMIT, REPORT_LIMIT, THREAD_LIMIT, THREAD_SIZE, WORD_SIZE};
use program::refusal::Refusal;
use program::sections::ProgramFile;

// The atomicity report of a file, laid over the front of the buffer; answers its length. The contract carries demand 2: the file is
// accepted exactly when the rules derive it, and the report is what they derive.
pub fn judge(file: &[u8], out: &mut [u8]) -> Result<usize, Refusal>
    ensures result { result ≡ judged_of (judge_answer file.now (length out.old)) }
    ensures buffer { out.new ≡ judge_buffer file.now out.old }
    ensures demand { Demand2 file.now }
{
    // The report is its first n bytes. An array and a number, and no ArrayVec: a report is made in a zeroed array of 8,200 bytes
    // (docs/DECISIONS.md) and written by index, a closer's byte before its opener's, while an ArrayVec grows at its end alone.
    let mut report = [0u8; REPORT_LIMIT];
    let (_, n) = judge_file(file, &mut report)?;
    if out.len() < n {
        return Err(Refusal::ShortBuffer(n));
    }
    out[..n].copy_from_slice(&report[..n]);
    Ok(n)
}

// An accepted program, run on a list: the caller's refusals in their order, then the run.
fn run_accepted(
    program: &ProgramFile,
    list: &[u8],
    out: &mut [u8],
) -> Result<[Counts; THREAD_LIMIT], Refusal>
    requires { OpenedFile program.now.bytes.now program.now.layout }
    ensures result { result ≡ ran_of (run_answer program.now.bytes.now list.now (length out.old)) }
    ensures buffer { out.new ≡ run_buffer program.now.bytes.now list.now out.old }
{
    if LIST_LIMIT < list.len() {
        return Err(Refusal::LongList(LIST_LIMIT));
    }
    let l = program.layout;
    if let Some(i) = first_bad_thread(list, l.threads) {
        return Err(Refusal::ThreadNumber(i));
    }
    let size = WORD_SIZE * l.variables + l.locks + THREAD_SIZE * l.threads;
    if out.len() < size {
        return Err(Refusal::ShortBuffer(size));
    }
    Ok(run_list(program, list, out))
}

// A list of thread numbers run from the start, its end state laid over the front of the buffer; answers the counts moved, waiting and
// idle of each thread. The contract carries demand 3: whoever calls may take each block of an accepted file as one step.
pub fn run(file: &[u8], list: &[u8], out: &mut [u8]) -> Result<[Counts; THREAD_LIMIT], Refusal>
    ensures result { result ≡ ran_of (run_answer file.now list.now (length out.old)) }
    ensures buffer { out.new ≡ run_buffer file.now list.now out.old }
    ensures demand { Demand3 file.now }
{
    let mut report = [0u8; REPORT_LIMIT];
    let (program, _) = judge_file(file, &mut report)?;
    run_accepted(&program, list, out)
}

// Line i of the printout, laid over the front of the buffer; answers its length.
pub fn line(file: &[u8], i: usize, out: &mut [u8]) -> Result<usize, Refusal>
    ensures result { result ≡ printed_of (line_answer file.now i (length out.old)) }
    ensures buffer { out.new ≡ line_buffer file.now i out.old }
{
    // The report is its first n bytes, as in judge.
    let mut report = [0u8; REPORT_LIMIT];
    let (program, n) = judge_file(file, &mut report)?;
    let printout = Printout {
        file: &program,
        report: &report[..n],
    };
    let count = printout.line_count();
    if count <= i {
        return Err(Refusal::LineNumber(count));
    }
    if out.len() < LINE_SIZE {
        return Err(Refusal::ShortBuffer(LINE_SIZE));
    }
    Ok(printout.write_line(i, out))
}
