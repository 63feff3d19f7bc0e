// The calls for C and Rust (include/hogunlas.h): answers as structs of numbers, refusal 0 for none. A slice is a pointer and a length.
// Each makes the public call of crates/hogunlas and states its clauses again. hogunlas_judge and hogunlas_line are alike, but each answers
// a struct of its own, since the header has one for each call: no function can stand for both.
#![tactic(auto)]

ghost use Rattle.std.specs.Prelude.{◌≡◌, length};
ghost use Rattle.judge.specs.Demand.{Demand2};
ghost use Rattle.soundness.specs.Demand.{Demand3};
ghost use Rattle.hogunlas.specs.Calls.{judge_answer, judge_buffer, judged_of, line_answer, line_buffer, printed_of, ran_of, run_answer, run_buffer};
ghost use Rattle.program.specs.Refusal.{detail_of, number_of};
ghost use Rattle.hogunlas_c.specs.Numbers.{judged_numbers, printed_numbers, ran_numbers};

use hogunlas::{judge, line, run};
use machine::counts::Counts;
use program::limits::THREAD_LIMIT;
use program::refusal::Refusal;

// C has no Result: refusal is 0 for none. (The header has a struct for each call, so that this one has a twin, PrintedNumbers.)
#[repr(C)]
#[derive(Clone, Copy)]
pub struct JudgedNumbers {
    pub refusal: u32,
    pub detail: u64,
    pub length: u64,
}

// In standards 1.0 and 1.1 run had the name hogunlas_run, and its struct three counts: a program that was compiled for these does not link.
// C has no Result: refusal is 0 for none.
#[repr(C)]
#[derive(Clone, Copy)]
pub struct RanNumbers {
    pub refusal: u32,
    pub detail: u64,
    pub threads: [Counts; THREAD_LIMIT],
}

// A refusal's number, and its detail.
fn number_and_detail(refusal: Refusal) -> (u32, u64)
    ensures { (result.0 ≡ number_of refusal) × (result.1 ≡ detail_of refusal) }
{
    (refusal.number() as u32, refusal.detail() as u64)
}

#[unsafe(no_mangle)]
pub extern "C" fn hogunlas_judge(file: &[u8], report: &mut [u8]) -> JudgedNumbers
    ensures result { result ≡ judged_numbers (judged_of (judge_answer file.now (length report.old))) }
    ensures buffer { report.new ≡ judge_buffer file.now report.old }
    ensures demand { Demand2 file.now }
{
    match judge(file, report) {
        Ok(n) => JudgedNumbers {
            refusal: 0,
            detail: 0,
            length: n as u64,
        },
        Err(refusal) => {
            let (refusal, detail) = number_and_detail(refusal);
            JudgedNumbers {
                refusal,
                detail,
                length: 0,
            }
        }
    }
}

#[unsafe(no_mangle)]
pub extern "C" fn hogunlas_run_by_thread(file: &[u8], list: &[u8], state: &mut [u8]) -> RanNumbers
    ensures result { result ≡ ran_numbers (ran_of (run_answer file.now list.now (length state.old))) }
    ensures buffer { state.new ≡ run_buffer file.now list.now state.old }
    ensures demand { Demand3 file.now }
{
    match run(file, list, state) {
        Ok(threads) => RanNumbers {
            refusal: 0,
            detail: 0,
            threads,
        },
        Err(refusal) => {
            let (refusal, detail) = number_and_detail(refusal);
            RanNumbers {
                refusal,
                detail,
                threads: [Counts::default(); THREAD_LIMIT],
            }
        }
    }
}

// C has no Result: refusal is 0 for none.
#[repr(C)]
#[derive(Clone, Copy)]
pub struct PrintedNumbers {
    pub refusal: u32,
    pub detail: u64,
    pub length: u64,
}

#[unsafe(no_mangle)]
pub extern "C" fn hogunlas_line(file: &[u8], i: u64, text: &mut [u8]) -> PrintedNumbers
    ensures result { result ≡ printed_numbers (printed_of (line_answer file.now i (length text.old))) }
    ensures buffer { text.new ≡ line_buffer file.now i text.old }
{
    match line(file, i as usize, text) {
        Ok(n) => PrintedNumbers {
            refusal: 0,
            detail: 0,
            length: n as u64,
        },
        Err(refusal) => {
            let (refusal, detail) = number_and_detail(refusal);
            PrintedNumbers {
                refusal,
                detail,
                length: 0,
            }
        }
    }
}
