// Line i of the printout of a sound file (the standard, "Line and bench"), found by counting: four lines for the head, one for each
// variable, then for each thread one and its code's, then one for each thread's whole. Where a code lies, the table of sections says.
ghost use Rattle.std.specs.Prelude.{◌≡◌, [], ◌+◌, ◌*◌, ◌≤◌, ◌<◌, length, get_or};
ghost use Rattle.program.specs.Limits.{thread_limit, variable_limit, instruction_size, record_offset, line_size};
ghost use Rattle.program.specs.Internal.Bounds.{program_limit, line_count};
ghost use Rattle.program.specs.Layout.{program_of};
ghost use Rattle.program.specs.Instruction.{decode_at, decoded_instruction};
ghost use Rattle.program.specs.Variable.{variable_at};
ghost use Rattle.program.specs.Internal.Sections.{bytes_before};
ghost use Rattle.printout.specs.Line.{lines, instruction_line, variable_line};
ghost use Rattle.printout.specs.Internal.Writing.{WrittenLine};
ghost use Rattle.printout.specs.Internal.Item.{head_lines, item_lines, ItemAt};

use crate::line::{
    head_line, instruction_line, thread_line, variable_line, variables_line, whole_line,
};
use program::instruction::instruction_at;
use program::layout::Layout;
use program::limits::{RECORDS_START, VARIABLE_SIZE};
use program::sections::ProgramFile;
use program::variable::{initial_at, kind_at};

// What a line after those of the variables shows.
#[derive(Clone, Copy)]
pub enum Item {
    // Thread t: its code section's length.
    Thread(usize),
    // The instruction of thread t at a place.
    Code(usize, usize),
    // Thread t's whole.
    Whole(usize),
}

// How many lines a sound file's printout has.
pub fn line_count(l: Layout) -> usize
    requires { (l.threads ≤ thread_limit) × (l.variables ≤ variable_limit) × (l.instructions ≤ program_limit) }
    ensures { result ≡ line_count l.variables l.threads l.instructions }
{
    4 + l.variables + l.threads + l.instructions + l.threads
}

// What a printout shows: a sound file, and its report. Its methods write a line to the start of a buffer of the caller's, as those of
// line.rt do: a slice, since the buffer may have any length from 48 on (bench's has the length of what is left of its output).
#[derive(Clone, Copy)]
pub struct Printout<'a> {
    pub file: &'a ProgramFile<'a>,
    pub report: &'a [u8],
    pub ghost covered: { file.now.layout.instructions + file.now.layout.threads ≤ length report.now },
}

impl<'a> Printout<'a> {
    // How many lines it has.
    #[tactic(auto, using(program::proofs::Sound::instructions_few))]
    pub fn line_count(&self) -> usize
        ensures { let f = self.now.file.now in result ≡ line_count f.layout.variables f.layout.threads f.layout.instructions }
    {
        line_count(self.file.layout)
    }

    // One of the head's four lines. By number, since lines are counted, and that is all that a caller knows of one.
    #[tactic(auto, unfolding(crate::specs::Internal::Item::head_lines, crate::specs::Internal::Item::variables_line, crate::specs::Line::head_line, crate::specs::Text::ascii))]
    fn write_head(&self, i: usize, out: &mut [u8]) -> usize
        requires { (i < 4) × (line_size ≤ length out.old) }
        ensures { let f = self.now.file.now in WrittenLine (get_or (head_lines f.bytes.now f.layout.variables) i []) out.old out.new result }
    {
        let bytes = self.file.bytes;
        match i {
            0 => head_line(bytes, 0, b"version", out),
            1 => head_line(bytes, 1, b"locks", out),
            2 => head_line(bytes, 2, b"threads", out),
            _ => variables_line(bytes, self.file.layout.variables, out),
        }
    }

    // Variable v's line.
    #[tactic(auto, unfolding(crate::specs::Line::variable_line, program::specs::Variable::variable_at))]
    fn write_variable(&self, v: usize, out: &mut [u8]) -> usize
        requires { (v < self.now.file.now.layout.variables) × (line_size ≤ length out.old) }
        ensures { let f = self.now.file.now in WrittenLine (variable_line f.bytes.now v (variable_at f.layout.locks f.layout.threads f.bytes.now (record_offset v))) out.old out.new result }
    {
        let bytes = self.file.bytes;
        let l = self.file.layout;
        let at = RECORDS_START + VARIABLE_SIZE * v;
        let kind = kind_at(bytes, at, l.locks, l.threads);
        variable_line(bytes, at, v as u8, kind, initial_at(bytes, at), out)
    }

    // What line i after the variables' shows: a code has as many lines as report bytes, and after all code there is one for each whole.
    #[tactic(auto, using(program::proofs::SectionTable::report_inside), unfolding(program::specs::Internal::Sections::bytes_before))]
    fn item_at(&self, i: usize) -> Item
        requires { let f = self.now.file.now in i < bytes_before f.counts f.layout.threads + f.layout.threads }
        ensures { let f = self.now.file.now in ItemAt f.counts f.layout.threads i result }
    {
        let mut from = 0;
        for t in 0..self.file.layout.threads {
            let count = self.file.count(t);
            let passed = i - from;
            if passed == 0 {
                return Item::Thread(t);
            }
            if passed <= count {
                return Item::Code(t, passed - 1);
            }
            from = from + count + 1;
        }
        Item::Whole(i - from)
    }

    // The report byte of thread t's whole; it stands after its instructions'.
    #[tactic(auto, using(program::proofs::SectionTable::report_inside))]
    fn whole_byte(&self, t: usize) -> u8
        requires { t < self.now.file.now.layout.threads }
        ensures { let f = self.now.file.now in result ≡ get_or self.now.report.now (bytes_before f.counts t + get_or f.counts t 0) 0 }
    {
        self.report[self.file.bytes_before(t) + self.file.count(t)]
    }

    // The line of thread t's instruction at a place, with its report byte.
    fn write_instruction(&self, t: usize, place: usize, byte: u8, out: &mut [u8]) -> usize
        requires { let f = self.now.file.now in (t < f.layout.threads) × (place < get_or f.counts t 0) × (line_size ≤ length out.old) }
        ensures { let f = self.now.file.now in let at = get_or f.starts t 0 + instruction_size * place in
            WrittenLine (instruction_line f.bytes.now at place (decoded_instruction (decode_at f.layout.locks f.layout.variables f.bytes.now at)) byte) out.old out.new result }
    {
        let bytes = self.file.bytes;
        let at = self.file.offset_of(t, place);
        instruction_line(bytes, at, place, instruction_at(bytes, at), byte, out)
    }

    // Line i after those of the variables.
    #[tactic(auto, using(program::proofs::SectionTable::report_inside, crate::proofs::Parts::item_thread, crate::proofs::Parts::item_code, crate::proofs::Parts::item_whole), unfolding(crate::specs::Internal::Item::whole_line))]
    fn write_item(&self, i: usize, out: &mut [u8]) -> usize
        requires { let f = self.now.file.now in (i < bytes_before f.counts f.layout.threads + f.layout.threads) × (line_size ≤ length out.old) }
        ensures { let f = self.now.file.now in WrittenLine (get_or (item_lines f.bytes.now f.layout self.now.report.now) i []) out.old out.new result }
    {
        match self.item_at(i) {
            Item::Thread(t) => {
                let file = self.file;
                thread_line(file.bytes, file.head_of(t), t, file.count(t), out)
            }
            // One line for each thread up to t and one for each report byte up to the instruction's: its byte is that before i.
            Item::Code(t, place) => self.write_instruction(t, place, self.report[i - 1], out),
            Item::Whole(t) => whole_line(t, self.whole_byte(t), out),
        }
    }

    // Line i, for a buffer of 48 bytes or more; answers the line's length.
    #[tactic(auto, using(crate::proofs::Parts::line_head, crate::proofs::Parts::line_variable, crate::proofs::Parts::line_item))]
    pub fn write_line(&self, i: usize, out: &mut [u8]) -> usize
        requires { let f = self.now.file.now in (i < line_count f.layout.variables f.layout.threads f.layout.instructions) × (line_size ≤ length out.old) }
        ensures { let f = self.now.file.now in WrittenLine (get_or (lines f.bytes.now (program_of f.bytes.now f.layout) self.now.report.now) i []) out.old out.new result }
    {
        if i < 4 {
            return self.write_head(i, out);
        }
        let past = i - 4;
        let variables = self.file.layout.variables;
        if past < variables {
            return self.write_variable(past, out);
        }
        self.write_item(past - variables, out)
    }
}
