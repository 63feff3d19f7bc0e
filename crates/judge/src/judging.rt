// A whole file judged (the standard, "Who can bring a number about": the sender's part, then the writer's).
ghost use Rattle.std.specs.Prelude.{◌≡◌, ◌≤◌, length};
ghost use Rattle.program.specs.Layout.{program_of};
ghost use Rattle.program.specs.Limits.{report_limit};
ghost use Rattle.program.specs.Internal.Marks.{writer_table};
ghost use Rattle.judge.specs.Internal.Judgement.{Judgement};
ghost use Rattle.judge.specs.Internal.Scan.{left_by, scan_codes};

use crate::access_rule::{Rule, fill_rules};
use crate::walk::walk_by;
use program::layout::read;
use program::limits::VARIABLE_LIMIT;
use program::refusal::Refusal;
use program::sections::ProgramFile;

// The codes of a file, in order.
fn walk_codes<'a>(
    file: &'a ProgramFile<'a>,
    writers: &[u8; VARIABLE_LIMIT],
    report: &mut [u8],
) -> Result<(), Refusal>
    requires { (report_limit ≤ length report.old) × (writers.now ≡ writer_table (program_of file.now.bytes.now file.now.layout)) }
    ensures { let p = program_of file.now.bytes.now file.now.layout in left_by result report.new ≡ scan_codes p 0 0 report.old p.codes }
{
    // Filled anew for each code, and lent: AccessRules, which own theirs, are copied once a code, and with them judging a file of 64 variables
    // and 8 short threads took up to 1.9 times as long.
    let mut reads = [Rule::Free; VARIABLE_LIMIT];
    let mut writes = [Rule::Free; VARIABLE_LIMIT];
    let mut first = 0;
    for code in 0..file.layout.threads {
        fill_rules(
            file.bytes,
            file.layout,
            code,
            writers,
            &mut reads,
            &mut writes,
        );
        walk_by(file, code, &reads, &writes, first, &mut *report)?;
        first += file.count(code) + 1;
    }
    Ok(())
}

// A file judged, its report written to the front of the buffer: an accepted one with the table of its sections, and the report's length.
// A longer buffer does too, so that its length is a clause and no array's type.
pub fn judge_file<'a>(
    bytes: &'a [u8],
    report: &mut [u8],
) -> Result<(ProgramFile<'a>, usize), Refusal>
    requires { report_limit ≤ length report.old }
    ensures { Judgement bytes.now report.old report.new result }
{
    let mut writers = [0u8; VARIABLE_LIMIT];
    let layout = read(bytes, &mut writers)?;
    let file = ProgramFile::locate(bytes, layout);
    walk_codes(&file, &writers, report)?;
    Ok((file, layout.instructions + layout.threads))
}
