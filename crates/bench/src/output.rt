// What bench prints, put into a lent buffer that is large enough for the longest printout (OUTPUT_LIMIT).
ghost use Rattle.std.specs.Prelude.{◌≡◌, ◌≤◌, length};
ghost use mathlib.Core.List.{flatten};
ghost use Rattle.program.specs.Limits.{bench_limit};
ghost use Rattle.program.specs.Internal.Bounds.{output_limit};
ghost use Rattle.hogunlas.specs.Calls.{bench_output, laid_over};
ghost use Rattle.bench.specs.Internal.Printing.{lines_of};

use judge::judging::judge_file;
use printout::line::refusal_line;
use printout::print::Printout;
use program::limits::REPORT_LIMIT;

// All lines of a printout, one after the other; answers how many bytes they take.
fn print_lines(printout: &Printout, text: &mut [u8]) -> usize
    requires { output_limit ≤ length text.old }
    ensures result { result ≡ length (flatten (lines_of printout.now)) }
    ensures buffer { text.new ≡ laid_over (flatten (lines_of printout.now)) text.old }
{
    let count = printout.line_count();
    let mut at = 0;
    for i in 0..count {
        at += printout.write_line(i, &mut text[at..]);
    }
    at
}

// The whole output for an input, laid over the front of the buffer; answers how many bytes it takes.
pub fn output(input: &[u8], text: &mut [u8]) -> usize
    requires { (length input.now ≤ bench_limit) × (output_limit ≤ length text.old) }
    ensures result { result ≡ length (bench_output input.now) }
    ensures buffer { text.new ≡ laid_over (bench_output input.now) text.old }
{
    // The report is its first n bytes: an array and a number, for the reason that hogunlas's judge has.
    let mut report = [0u8; REPORT_LIMIT];
    match judge_file(input, &mut report) {
        Err(refusal) => refusal_line(refusal, text),
        Ok((file, n)) => {
            let printout = Printout {
                file: &file,
                report: &report[..n],
            };
            print_lines(&printout, text)
        }
    }
}
