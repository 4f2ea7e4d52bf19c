// Why a job is refused, and where.
ghost use Rattle.std.specs.Prelude.{◌≡◌, ℕ};
ghost use Rattle.text.specs.Faults.{fault_at, part_of, part_number};

use geometry::refusal::Refusal;

// The part of the work that refuses.
#[derive(Clone, Copy, PartialEq, Eq)]
pub enum Part {
    // reading the text, and room for what it says
    Text = 1,
    // the solid that corners and faces make
    Solid = 2,
    // the survey of that solid
    Survey = 3,
}

// The part that a refusal belongs to.
impl From<Refusal> for Part {
    ghost from_gives = { λ refusal part. part ≡ part_of refusal };

    fn from(refusal: Refusal) -> Part {
        match refusal {
            Refusal::Head | Refusal::Fields | Refusal::Field | Refusal::Room => Part::Text,
            Refusal::Coordinate
            | Refusal::Corner
            | Refusal::Side
            | Refusal::Empty
            | Refusal::Count => Part::Solid,
            Refusal::Plane
            | Refusal::Ground
            | Refusal::Run
            | Refusal::Total
            | Refusal::Pixel
            | Refusal::Picture => Part::Survey,
        }
    }
}

// The number that stands for the part.
impl From<Part> for u8 {
    ghost from_gives = { λ part number. number ≡ part_number part };

    fn from(part: Part) -> u8 {
        part as u8
    }
}

// A refusal, the part of the work that it belongs to, and the line, counted from 1. The field is that of the first bad field, counted from
// 1, where the refusal is `Field`, and else 0. A rule of the project gives a fault these four numbers.
#[derive(Clone, Copy, PartialEq, Eq)]
pub struct Fault {
    pub refusal: Refusal,
    pub part: Part,
    pub line: usize,
    pub field: usize,
}

impl Fault {
    // The refusal at a line, about none of its fields.
    pub fn at(refusal: Refusal, line: usize) -> Fault
        ensures { result ≡ fault_at refusal line 0 }
    {
        Fault::in_field(refusal, line, 0)
    }

    // The refusal at a field of a line.
    pub fn in_field(refusal: Refusal, line: usize, field: usize) -> Fault
        ensures { result ≡ fault_at refusal line field }
    {
        Fault {
            refusal,
            part: refusal.into(),
            line,
            field,
        }
    }
}
