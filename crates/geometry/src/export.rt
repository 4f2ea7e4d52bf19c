// The strike test in numbers, for callers in C, whose interface asks for numbers alone: the static library of the crate geometry_c exports it, and include/hovantsi.h declares it.
ghost use Rattle.std.specs.Prelude.{◌≡◌};
ghost use Rattle.geometry.specs.Vectors.{vector};
ghost use Rattle.geometry.specs.Answers.{struck_or_refused, told_in_c};

use crate::facet::Facet;
use crate::light::Run;
use crate::refusal::Refusal;
use crate::units::Point;

// The answer as a number, as the interface to C needs it.
fn told(answer: Result<bool, Refusal>) -> u8
    ensures { result ≡ told_in_c answer }
{
    match answer {
        Ok(false) => 0,
        Ok(true) => 1,
        Err(refusal) => refusal.into(),
    }
}

// Whether the triangle a b c keeps light of the run d from the receiver p: 0 for no, 1 for yes, else the number of the refusal. C passes
// the parts of the five vectors, and no type of the library.
pub fn hovantsi_strike(
    dx: i64,
    dy: i64,
    dz: i64,
    ax: i64,
    ay: i64,
    az: i64,
    bx: i64,
    by: i64,
    bz: i64,
    cx: i64,
    cy: i64,
    cz: i64,
    px: i64,
    py: i64,
    pz: i64,
) -> u8
    ensures { result ≡ told_in_c (struck_or_refused (vector dx dy dz) (vector ax ay az) (vector bx by bz) (vector cx cy cz) (vector px py pz)) }
{
    let run = Run { dx, dy, dz };
    let a = Point::new(ax, ay, az);
    let b = Point::new(bx, by, bz);
    let c = Point::new(cx, cy, cz);
    let facet = Facet { a, b, c };
    told(facet.strike(run, Point::new(px, py, pz)))
}
