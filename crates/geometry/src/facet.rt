// Facets: triangles in space, by their corners.
ghost use Rattle.std.specs.Prelude.{◌≡◌, pos, int_lt};
ghost use Rattle.std.specs.Int.{int_wrap, w64};
ghost use Rattle.geometry.specs.Vectors as exact;
ghost use Rattle.geometry.specs.Machine.{vector_of, wrapped3};
ghost use Rattle.geometry.specs.Units.{point_of};
ghost use Rattle.geometry.specs.Light.{run_of};
ghost use Rattle.geometry.specs.Limits.{InLimits, LawfulRun};
ghost use Rattle.geometry.specs.Strikes as test;

use crate::light::Run;
use crate::units::Point;
use crate::vector::{Vector, cross, difference, dot};

// The triangle a b c. Its outside is where the corners turn against the clock. Limits are asked of it corner by corner, as the law of solids
// promises them.
#[derive(Clone, Copy, PartialEq, Eq, Debug)]
pub struct Facet {
    pub a: Point,
    pub b: Point,
    pub c: Point,
}

impl Facet {
    // The outer normal.
    pub fn normal(self) -> Vector
        ensures { vector_of result ≡ wrapped3 (test.normal (point_of self.a) (point_of self.b) (point_of self.c)) }
    {
        let a = Vector::from(self.a);
        cross(difference(self.b.into(), a), difference(self.c.into(), a))
    }

    // Whether the outside is turned to the light.
    pub fn is_sunward(self, run: Run) -> bool
        ensures wrapped { result ≡ int_lt (int_wrap w64 (exact.dot (test.normal (point_of self.a) (point_of self.b) (point_of self.c)) (run_of run))) (pos 0) }
        ensures exact { InLimits (point_of self.a) → InLimits (point_of self.b) → InLimits (point_of self.c) → LawfulRun (run_of run) → result ≡ test.sunward (run_of run) (point_of self.a) (point_of self.b) (point_of self.c) }
    {
        dot(self.normal(), run.into()) < 0
    }
}
