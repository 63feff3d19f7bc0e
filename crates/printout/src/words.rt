// The words of a kind and of an instruction, each with a blank after it: a name, then its fields.
ghost use Rattle.std.specs.Prelude.{◌≡◌, ◌∷◌, ◌++◌, ◌+◌, ◌≤◌, length, flat_map};
ghost use Rattle.std.specs.List.{sum_by};
ghost use Rattle.program.specs.Limits.{line_size};
ghost use Rattle.printout.specs.Line.{kind_words, instruction_words};
ghost use Rattle.printout.specs.Internal.Field.{field_words, field_room};
ghost use Rattle.printout.specs.Internal.Writing.{blanked};

pub use crate::placed::{instruction_words, kind_words};
use crate::text::LineText;
use program::instruction::Instruction;
use program::variable::Kind;

// A field behind a name: "r, v, k for register, variable, lock; numbers bare". An enum and no Display: why not `write!`, text.rt says.
#[derive(Clone, Copy)]
pub enum Field {
    Register(u8),
    Variable(u8),
    Lock(u8),
    Thread(u8),
    Number(u16),
    // The atomicity that an ATOMIC states; "nothing for 0".
    Stated(u8),
}

impl LineText {
    // A field. Compiled into each caller, as `words` is: with calls, and a `digits` with no early end, a line took 67 ns against 46.
    #[tactic(auto, using(crate::proofs::Digits::short_digits), unfolding(crate::specs::Internal::Field::field_words, crate::specs::Internal::Writing::blanked, crate::specs::Internal::Writing::lettered, crate::specs::Line::numbered, crate::specs::Line::stated_words, crate::specs::Text::ascii))]
    #[inline(always)]
    fn field(&mut self, field: Field)
        requires { length self.old.bytes.items + field_room field ≤ line_size }
        ensures words { self.new.bytes.items ≡ self.old.bytes.items ++ blanked (field_words field) }
        ensures room { length self.new.bytes.items ≤ length self.old.bytes.items + field_room field }
    {
        match field {
            Field::Register(a) => self.lettered(b'r', a),
            Field::Variable(v) => self.lettered(b'v', v),
            Field::Lock(k) => self.lettered(b'k', k),
            Field::Thread(t) => self.lettered(b't', t),
            Field::Number(n) => self.number(usize::from(n)),
            Field::Stated(0) => {}
            Field::Stated(a) => self.letter(a),
        }
    }

    // A name and its fields.
    #[tactic(auto, unfolding(crate::specs::Internal::Writing::blanked))]
    #[inline(always)]
    pub fn words(&mut self, name: &[u8], fields: &[Field])
        requires { length self.old.bytes.items + length name.now + 1 + sum_by field_room fields.now ≤ line_size }
        ensures words { self.new.bytes.items ≡ self.old.bytes.items ++ blanked (name.now ∷ flat_map field_words fields.now) }
        ensures room { length self.new.bytes.items ≤ length self.old.bytes.items + length name.now + 1 + sum_by field_room fields.now }
    {
        self.name(name);
        for field in fields {
            self.field(*field);
        }
    }

    // The words of a variable's kind.
    #[tactic(auto, unfolding(crate::specs::Internal::Field::field_words, crate::specs::Line::kind_words, crate::specs::Text::ascii))]
    pub fn kind(&mut self, kind: Kind)
        requires { length self.old.bytes.items + 13 ≤ line_size }
        ensures words { self.new.bytes.items ≡ self.old.bytes.items ++ blanked (kind_words kind) }
        ensures room { length self.new.bytes.items ≤ length self.old.bytes.items + 13 }
    {
        match kind {
            Kind::Guarded(g) => self.words(b"guarded", &[Field::Lock(g)]),
            Kind::Own(g) => self.words(b"own", &[Field::Thread(g)]),
            Kind::Fixed => self.words(b"fixed", &[]),
            Kind::Open => self.words(b"open", &[]),
        }
    }

    // The words of an instruction: "name, its fields in byte order".
    #[tactic(auto, unfolding(crate::specs::Internal::Field::field_words, crate::specs::Line::instruction_words, crate::specs::Text::ascii))]
    pub fn instruction(&mut self, i: Instruction)
        requires { length self.old.bytes.items + 21 ≤ line_size }
        ensures words { self.new.bytes.items ≡ self.old.bytes.items ++ blanked (instruction_words i) }
        ensures room { length self.new.bytes.items ≤ length self.old.bytes.items + 21 }
    {
        use Field::{Lock, Number, Register, Stated, Variable};
        match i {
            Instruction::Set(a, n) => self.words(b"SET", &[Register(a), Number(n)]),
            Instruction::Copy(a, b) => self.words(b"COPY", &[Register(a), Register(b)]),
            Instruction::Add(a, b, c) => self.words(
                b"ADD",
                &[Register(a), Register(b), Register(c)],
            ),
            Instruction::Sub(a, b, c) => self.words(
                b"SUB",
                &[Register(a), Register(b), Register(c)],
            ),
            Instruction::Less(a, b, c) => self.words(
                b"LESS",
                &[Register(a), Register(b), Register(c)],
            ),
            Instruction::Read(a, v) => self.words(b"READ", &[Register(a), Variable(v)]),
            Instruction::Write(a, v) => self.words(b"WRITE", &[Register(a), Variable(v)]),
            Instruction::Take(k) => self.words(b"TAKE", &[Lock(k)]),
            Instruction::Give(k) => self.words(b"GIVE", &[Lock(k)]),
            Instruction::If(a, n) => self.words(b"IF", &[Register(a), Number(n)]),
            Instruction::Else(n) => self.words(b"ELSE", &[Number(n)]),
            Instruction::While(a, n) => self.words(b"WHILE", &[Register(a), Number(n)]),
            Instruction::Again(n) => self.words(b"AGAIN", &[Number(n)]),
            Instruction::Atomic(stated, n) => self.words(b"ATOMIC", &[Number(n), Stated(stated)]),
            Instruction::End => self.words(b"END", &[]),
            Instruction::Mulh(a, b, c) => self.words(
                b"MULH",
                &[Register(a), Register(b), Register(c)],
            ),
            Instruction::Lesss(a, b, c) => self.words(
                b"LESSS",
                &[Register(a), Register(b), Register(c)],
            ),
        }
    }
}
