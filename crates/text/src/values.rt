// The numbers and words that a record's fields hold.
ghost use Rattle.std.specs.Prelude.{◌≡◌, ℕ, List, ℤ, MatchOption, MatchResult};
ghost use Rattle.text.specs.Number.{Spells};
ghost use Rattle.text.specs.Heads.{shape, head_of, fields};
ghost use Rattle.text.specs.Entries.{kind_word, what_word, Says, FirstBad};

use crate::entry::{Entry, PlaneKind, What};
use crate::head::{Head, Record};
use crate::number::number;

// The number, from 1, of the first field that is no number or allowed word.
#[derive(Clone, Copy, PartialEq, Eq, Debug)]
pub struct BadField(pub usize);

// What a field may hold, as it is spelt there. No TryFrom, which has no relation that the contracts of a whole line can name.
trait Field: Sized {
    ghost spelt: { List ℕ → Self → Type 0 };

    fn read(text: &[u8]) -> Option<Self>
        ensures { MatchOption result ((x : Self) → spelt text.now x → ⊥) (λ x. spelt text.now x) };
}

impl Field for i32 {
    ghost spelt = { λ text z. Spells text z };

    fn read(text: &[u8]) -> Option<i32> {
        number(text)
    }
}

impl Field for PlaneKind {
    ghost spelt = { λ text kind. text ≡ kind_word kind };

    fn read(text: &[u8]) -> Option<PlaneKind> {
        match text {
            b"line" => Some(PlaneKind::Line),
            b"pack" => Some(PlaneKind::Pack),
            _ => None,
        }
    }
}

impl Field for What {
    ghost spelt = { λ text what. text ≡ what_word what };

    fn read(text: &[u8]) -> Option<What> {
        match text {
            b"solids" => Some(What::Solids),
            _ => None,
        }
    }
}

// What this field holds.
fn at<F: Field>(text: &[u8], field: usize) -> Result<F, BadField>
    ensures { MatchResult result (λ x. F.spelt text.now x) (λ bad. (bad.0 ≡ field) × ((x : F) → F.spelt text.now x → ⊥)) }
{
    F::read(text).ok_or(BadField(field))
}

// What a record says, or the first field that is no number or allowed word.
pub fn entry_of(read: Record) -> Result<Entry, BadField>
    ensures { MatchResult result (λ e. Says (head_of read.entry) (fields read.entry) e) (λ bad. FirstBad (shape (head_of read.entry)) (fields read.entry) bad.0) }
{
    match read {
        Record::Plan { width, rows, kind } => Ok(Entry::Plan {
            width: at(width, 1)?,
            rows: at(rows, 2)?,
            kind: at(kind, 3)?,
        }),
        Record::Ground { height } => Ok(Entry::Ground {
            height: at(height, 1)?,
        }),
        Record::Frame { c0, r0, c1, r1 } => Ok(Entry::Frame {
            c0: at(c0, 1)?,
            r0: at(r0, 2)?,
            c1: at(c1, 3)?,
            r1: at(r1, 4)?,
        }),
        Record::Corner { x, y, z } => Ok(Entry::Corner {
            x: at(x, 1)?,
            y: at(y, 2)?,
            z: at(z, 3)?,
        }),
        Record::Face { a, b, c } => Ok(Entry::Face {
            a: at(a, 1)?,
            b: at(b, 2)?,
            c: at(c, 3)?,
        }),
        Record::Lay { what } => Ok(Entry::Lay { what: at(what, 1)? }),
        Record::Cast { what, dx, dy, dz } => Ok(Entry::Cast {
            what: at(what, 1)?,
            dx: at(dx, 2)?,
            dy: at(dy, 3)?,
            dz: at(dz, 4)?,
        }),
    }
}
