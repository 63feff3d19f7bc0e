// The five atomicities of the standard, "Atomicities": how the steps of a piece of code
// commute with the steps of other threads.
#![tactic(auto)]

ghost use Rattle.std.specs.Prelude.{◌≡◌, [], get_or};
ghost use Rattle.atomicity.specs.declared.Atomicity.TheVariants.{Both};
ghost use Rattle.atomicity.specs.Atomicity.{at_most, closure, composition, join, report_byte};
ghost use Rattle.atomicity.specs.Internal.Column.{column};

#[derive(Clone, Copy, PartialEq, Eq)]
pub enum Atomicity {
    // B, both mover: its steps commute both ways.
    Both,
    // L, left mover: its steps can be taken earlier.
    Left,
    // R, right mover: its steps can be taken later.
    Right,
    // A, atomic: it acts as one step.
    Atomic,
    // T, none of these.
    Top,
}

const B: Atomicity = Atomicity::Both;

const L: Atomicity = Atomicity::Left;

const R: Atomicity = Atomicity::Right;

const A: Atomicity = Atomicity::Atomic;

const T: Atomicity = Atomicity::Top;

// Rows and columns of the tables stand in the order of the report bytes, B L R A T.
const COMPOSITION: &[[Atomicity; 5]; 5] = &[
    [B, L, R, A, T],
    [L, L, T, T, T],
    [R, A, R, A, T],
    [A, A, T, T, T],
    [T, T, T, T, T],
];

const JOIN: &[[Atomicity; 5]; 5] = &[
    [B, L, R, A, T],
    [L, L, A, A, T],
    [R, A, R, A, T],
    [A, A, A, A, T],
    [T, T, T, T, T],
];

// What a table holds for two atomicities.
fn entry(table: &[[Atomicity; 5]; 5], a: Atomicity, b: Atomicity) -> Atomicity
    ensures { result ≡ get_or (get_or table.now (column a) []) (column b) Both }
{
    table[a.column()][b.column()]
}

impl Atomicity {
    // Its row and its column in a table: the variants stand in their order.
    fn column(self) -> usize
        ensures { result ≡ column self }
    {
        self as usize
    }

    // The byte that stands for it in the report: by a match, as the standard lists them.
    pub fn report_byte(self) -> u8
        ensures { result ≡ report_byte self }
    {
        match self {
            Atomicity::Both => 1,
            Atomicity::Left => 2,
            Atomicity::Right => 3,
            Atomicity::Atomic => 4,
            Atomicity::Top => 5,
        }
    }

    // This and then `b`.
    #[tactic(auto, using(crate::proofs::Table::table_at), unfolding(crate::specs::Atomicity::composition))]
    pub fn then(self, b: Atomicity) -> Atomicity
        ensures { result ≡ composition self b }
    {
        entry(COMPOSITION, self, b)
    }

    // The least atomicity at or above both.
    #[tactic(auto, using(crate::proofs::Table::table_at), unfolding(crate::specs::Atomicity::join))]
    pub fn join(self, b: Atomicity) -> Atomicity
        ensures { result ≡ join self b }
    {
        entry(JOIN, self, b)
    }

    // Whether this is at or below `b`: the two joined are `b`.
    #[tactic(auto, using(crate::proofs::Laws::order_same))]
    pub fn at_most(self, b: Atomicity) -> bool
        ensures { result ≡ at_most self b }
    {
        self.join(b) == b
    }

    // Any number of times this, one after the other.
    pub fn closure(self) -> Atomicity
        ensures { result ≡ closure self }
    {
        match self {
            Atomicity::Both => Atomicity::Both,
            Atomicity::Left => Atomicity::Left,
            Atomicity::Right => Atomicity::Right,
            Atomicity::Atomic => Atomicity::Top,
            Atomicity::Top => Atomicity::Top,
        }
    }
}
