// What several crates take or answer with. The definitions stand in specs/, their laws in proofs/.

#![tactic(auto)]

ghost use lib.Dec.{T};
ghost use Rattle.std.specs.Prelude.{◌||◌, eqb, ltb};
ghost use Rattle.model.specs.Matrix.{Laid};
ghost use Rattle.model.specs.Policy.{policy, Within};

// A number that no reason of the table has.
#[derive(Clone, Copy)]
pub struct OtherNumber {
    pub number: usize,
    ghost unlisted: { T (eqb number 0 || ltb 12 number) },
}

impl PartialEq for OtherNumber {
    ghost use Rattle.std.specs.Prelude.{◌==◌};
    ghost use Rattle.std.specs.Ordering.{on};
    ghost use Rattle.std.proofs.Common.{rules};
    ghost use Rattle.std.specs.Cmp.Rules.{comparing};

    ghost eq = { on (λ x. x.number) ◌==◌ };

    ghost laws = { Prim.search (comparing, rules) };

    fn eq(&self, other: &OtherNumber) -> bool {
        self.number == other.number
    }
}

impl Eq for OtherNumber {
    ghost use Rattle.std.proofs.Common.{rules};
    ghost use Rattle.std.specs.Cmp.Rules.{comparing};

    ghost laws = { Prim.search (comparing, rules) };
}

impl std::fmt::Debug for OtherNumber {
    fn fmt<W: std::fmt::Write>(&self, f: &mut std::fmt::Formatter<W>) -> std::fmt::Result {
        self.number.fmt(f)
    }
}

// Why a call refuses: the reasons numbered 1 to 12 (01, "Numbers of refusal"), and any other number, so that every number is that of one reason.
#[derive(Clone, Copy, Debug, PartialEq, Eq)]
pub enum Fault {
    Limit,
    MatrixLength,
    MatrixCell,
    Unlogged,
    AssignmentLength,
    DomainNumber,
    TableLength,
    TableCell,
    OutOfRange,
    AssignmentRoom,
    Room,
    FileForm,
    Other(OtherNumber),
}

impl Fault {
    ghost use Rattle.std.specs.Prelude.{◌≡◌};
    ghost use Rattle.model.specs.Refusal.{number_of};

    pub fn number(self) -> usize
        ensures { result ≡ number_of self }
    {
        match self {
            Fault::Limit => 1,
            Fault::MatrixLength => 2,
            Fault::MatrixCell => 3,
            Fault::Unlogged => 4,
            Fault::AssignmentLength => 5,
            Fault::DomainNumber => 6,
            Fault::TableLength => 7,
            Fault::TableCell => 8,
            Fault::OutOfRange => 9,
            Fault::AssignmentRoom => 10,
            Fault::Room => 11,
            Fault::FileForm => 12,
            Fault::Other(other) => other.number,
        }
    }
}

// The reason that has a number.
impl From<usize> for Fault {
    ghost use Rattle.std.specs.Prelude.{◌≡◌};
    ghost use Rattle.model.specs.Refusal.{number_of};

    fn from(number: usize) -> Fault
        ensures { number_of result ≡ number }
    {
        match number {
            1 => Fault::Limit,
            2 => Fault::MatrixLength,
            3 => Fault::MatrixCell,
            4 => Fault::Unlogged,
            5 => Fault::AssignmentLength,
            6 => Fault::DomainNumber,
            7 => Fault::TableLength,
            8 => Fault::TableCell,
            9 => Fault::OutOfRange,
            10 => Fault::AssignmentRoom,
            11 => Fault::Room,
            12 => Fault::FileForm,
            _ => Fault::Other(OtherNumber { number }),
        }
    }
}

// A refusal: why, and the place. Only `scan` makes one.
#[derive(Clone, Copy, Debug, PartialEq, Eq)]
pub struct Refusal {
    pub fault: Fault,
    pub place: usize,
}

// A matrix within the limits: n entities, k rights, and the cells in their order.
#[derive(Clone, Copy)]
pub struct Matrix<'a> {
    pub n: usize,
    pub k: usize,
    pub cells: &'a [u8],
    ghost laid: { Laid n k cells.now },
}

// A policy within the limits, for n entities and k rights: the domain of each entity, and the table between so many domains.
#[derive(Clone, Copy)]
pub struct Policy<'a> {
    pub n: usize,
    pub k: usize,
    pub domains: usize,
    pub assignment: &'a [u8],
    pub table: &'a [u8],
    ghost within: { Within n k (policy domains assignment.now table.now) },
}
