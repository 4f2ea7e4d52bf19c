// The strike test: whether a triangle keeps the light from a point. It stands alone and knows no plane and no solid.
ghost use Rattle.std.specs.Prelude.{◌≡◌, FitsSigned};
ghost use Rattle.std.specs.Int.{w64};
ghost use Rattle.geometry.specs.Vectors as exact;
ghost use Rattle.geometry.specs.Machine.{vector_of, sign_is, wrapped_side};
ghost use Rattle.geometry.specs.Units.{point_of};
ghost use Rattle.geometry.specs.Light.{run_of};
ghost use Rattle.geometry.specs.Limits.{InLimits, InReceiverLimits, LawfulRun};
ghost use Rattle.geometry.specs.Signs.{is_negative};
ghost use Rattle.geometry.specs.Strikes as test;
ghost use Rattle.geometry.specs.Answers.{in_strike_limits, struck_or_refused};

use crate::facet::Facet;
use crate::light::Run;
use crate::refusal::Refusal;
use crate::sign::Sign;
use crate::units::Point;
use crate::vector::{Vector, cross, difference, dot};

// The side of the point p at the plane through u with the normal n. A point in the plane counts as a hair lower, then right, then down.
// A type for n and u would be no plainer: each caller makes the normal for the call, and would make it of two parts to be taken apart.
pub fn plane_side(n: Vector, u: Vector, p: Vector) -> Sign
    ensures wrapped { sign_is result ≡ wrapped_side (vector_of n) (vector_of u) (vector_of p) }
    ensures exact { FitsSigned w64 (exact.dot (vector_of n) (exact.minus (vector_of p) (vector_of u))) → sign_is result ≡ test.plane_side (vector_of n) (vector_of u) (vector_of p) }
{
    let value = dot(n, difference(p, u));
    let in_plane = Sign::of_negative(n[2]).or_else(Sign::of(n[0]).or_else(Sign::of(n[1])));
    Sign::of(value).or_else(in_plane)
}

// Whether the point p lies on the negative side of the plane through u with the normal n.
fn is_behind(n: Vector, u: Vector, p: Vector) -> bool
    requires { FitsSigned w64 (exact.dot (vector_of n) (exact.minus (vector_of p) (vector_of u))) }
    ensures { result ≡ is_negative (test.plane_side (vector_of n) (vector_of u) (vector_of p)) }
{
    plane_side(n, u, p) == Sign::Negative
}

// A ray of light, and the facet that may keep it from the receiver: all within their limits, so that nothing overflows.
#[derive(Clone, Copy)]
struct ShadowRay {
    run: Run,
    facet: Facet,
    receiver: Point,
    ghost run_in: { LawfulRun (run_of run) },
    ghost a_in: { InLimits (point_of facet.a) },
    ghost b_in: { InLimits (point_of facet.b) },
    ghost c_in: { InLimits (point_of facet.c) },
    ghost receiver_in: { InReceiverLimits (point_of receiver) },
}

impl ShadowRay {
    // Whether the receiver lies behind the facet.
    fn is_below(self) -> bool
        ensures { result ≡ is_negative (test.plane_side (test.normal (point_of self.facet.a) (point_of self.facet.b) (point_of self.facet.c)) (point_of self.facet.a) (point_of self.receiver)) }
    {
        is_behind(
            self.facet.normal(),
            self.facet.a.into(),
            self.receiver.into(),
        )
    }

    // Whether the receiver lies on the inner side of the plane through the side from u to v along the light. A side is given by its ends,
    // here and to `Face::wall`: a type for two points would be made by each caller and taken apart by each function.
    fn is_within(self, u: Point, v: Point) -> bool
        requires u { InLimits (point_of u) }
        requires v { InLimits (point_of v) }
        ensures { result ≡ is_negative (test.plane_side (exact.cross (run_of self.run) (exact.minus (point_of v) (point_of u))) (point_of u) (point_of self.receiver)) }
    {
        let u = Vector::from(u);
        let side = difference(v.into(), u);
        is_behind(cross(self.run.into(), side), u, self.receiver.into())
    }

    // Whether the facet is sunward, and the receiver lies behind it and within the three planes through its sides.
    fn strikes(self) -> bool
        ensures { result ≡ test.strikes (run_of self.run) (point_of self.facet.a) (point_of self.facet.b) (point_of self.facet.c) (point_of self.receiver) }
    {
        let Facet { a, b, c } = self.facet;
        self.facet.is_sunward(self.run)
            && self.is_below()
            && self.is_within(a, b)
            && self.is_within(b, c)
            && self.is_within(c, a)
    }
}

impl Facet {
    // Whether the corners' coordinates and a receiver's are within their limits.
    fn is_in_limits(self, receiver: Point) -> bool
        ensures { result ≡ in_strike_limits (point_of self.a) (point_of self.b) (point_of self.c) (point_of receiver) }
    {
        self.a.is_corner() && self.b.is_corner() && self.c.is_corner() && receiver.is_receiver()
    }

    // Whether the facet keeps light of this run from the receiver. Refuses a coordinate, and then a run, that is outside its limits.
    pub fn strike(self, run: Run, receiver: Point) -> Result<bool, Refusal>
        ensures { result ≡ struck_or_refused (run_of run) (point_of self.a) (point_of self.b) (point_of self.c) (point_of receiver) }
    {
        if !self.is_in_limits(receiver) {
            return Err(Refusal::Coordinate);
        }
        if !run.is_lawful() {
            return Err(Refusal::Run);
        }
        let ray = ShadowRay {
            run,
            facet: self,
            receiver,
        };
        Ok(ray.strikes())
    }
}
