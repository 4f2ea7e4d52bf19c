// Why a call refuses.
ghost use Rattle.std.specs.Prelude.{◌≡◌, Some};
ghost use Rattle.geometry.specs.Refusals.{number_of, told};

use std::error::Error;
use std::fmt;

// One case for each reason, with the number that stands for it in the program's output and towards C. docs/REFUSALS.md says which
// call gives which, and in what order a call tests them.
#[derive(Clone, Copy, PartialEq, Eq, Debug)]
pub enum Refusal {
    // a width or a number of rows outside 1 to 256, a list of the wrong length, or a plane that is not the survey's
    Plane = 1,
    // a ground height outside -8192 to 8192
    Ground = 2,
    // a coordinate outside its limits
    Coordinate = 3,
    // a corner number out of range, or twice in a triangle
    Corner = 4,
    // a directed side used twice or without its reverse, or a wrong partner
    Side = 5,
    // no triangles
    Empty = 6,
    // a count or a list's length outside its limits
    Count = 7,
    // a run outside its limits
    Run = 8,
    // a sunward total that would pass 1,000,000
    Total = 9,
    // a pixel outside the window
    Pixel = 10,
    // an unknown or misplaced head, a last line without its end, or a job that ends early
    Head = 11,
    // another number of fields
    Fields = 12,
    // a field that is no number or allowed word
    Field = 13,
    // a working list that is too short
    Room = 14,
    // a picture buffer that is too short
    Picture = 15,
}

// The number that stands for the refusal.
impl From<Refusal> for u8 {
    ghost from_gives = { λ refusal number. number ≡ number_of refusal };

    fn from(refusal: Refusal) -> u8 {
        refusal as u8
    }
}

// The word `refused`, and the number.
impl fmt::Display for Refusal {
    ghost output = { λ refusal. Some (told refusal) };

    fn fmt<W: fmt::Write>(&self, f: &mut fmt::Formatter<W>) -> fmt::Result {
        write!(f, "refused {}", u8::from(*self))
    }
}

impl Error for Refusal {}
