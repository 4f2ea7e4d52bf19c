// Where a face lies over a sample: whether below a given height, and at which height.
ghost use Rattle.std.specs.Prelude.{◌≡◌, ◌^◌, ◌≤◌, unsigned_abs};
ghost use Rattle.algebra.specs.Division.{floor_div};
ghost use Rattle.geometry.specs.Signs.{sign_of, alike};
ghost use Rattle.volumes.specs.Faces.{below};
ghost use Rattle.volumes.specs.Heights.{raised_at};
ghost use Rattle.volumes.specs.Machine.{face_of, sample_of, step_of};
ghost use Rattle.volumes.specs.Wrapped.{wrapped_below, wrapped_ratio, wrapped_raised_to, wrapped_raised_at};
ghost use Rattle.volumes.specs.Near.{NearFace, NearSample};

use crate::cover::{Cover, Sample};
use crate::face::Face;
use geometry::units::Step;
use geometry::vector::{difference, dot};

// Whether both numbers are above 0, or both below.
fn are_alike(a: i64, b: i64) -> bool
    ensures { result ≡ alike (sign_of a) (sign_of b) }
{
    a > 0 && b > 0 || a < 0 && b < 0
}

// number / by, rounded downwards; 0 or -1 where `by` is 0. `div_euclid` would be no plainer: it wants a divisor that is an i64 and not 0, and a
// normal may have any part.
fn floor_quotient(number: i64, by: u64) -> i64
    ensures { result ≡ floor_div number by }
{
    if by == 0 {
        if number < 0 { -1 } else { 0 }
    } else if number < 0 {
        !((!number as u64 / by) as i64)
    } else {
        (number as u64 / by) as i64
    }
}

// number / by, rounded downwards, where `by` may be negative.
fn floor_ratio(number: i64, by: i64) -> i64
    ensures { result ≡ wrapped_ratio number by }
{
    if by < 0 {
        floor_quotient(number.wrapping_neg(), by.unsigned_abs())
    } else {
        floor_quotient(number, by.unsigned_abs())
    }
}

impl Face {
    // Whether the face's height at the sample is below z. A vertical face has no height, and is never below.
    pub fn is_below(&self, sample: Sample, z: Step) -> bool
        ensures wrapped { result ≡ wrapped_below (face_of self.now) (sample_of sample) z.0 }
        ensures exact { NearFace (face_of self.now) → NearSample (sample_of sample) → unsigned_abs z.0 ≤ 2 ^ 14 → result ≡ below (face_of self.now) (sample_of sample) z.0 }
    {
        let above = dot(self.normal, difference(sample.receiver(z), self.first));
        are_alike(above, self.normal[2])
    }

    // The face's height at the sample, rounded downwards, and one more.
    fn next_above(&self, sample: Sample) -> Step
        ensures { result.0 ≡ wrapped_raised_to (face_of self.now) (sample_of sample) }
    {
        let scaled = dot(
            self.normal,
            difference(self.first, sample.receiver(Step(0))),
        );
        Step(floor_ratio(scaled, self.normal[2]).wrapping_add(1))
    }

    // What a pixel that the face covers, either way, is raised to: the least whole number that the face's height is below.
    pub fn raised_to(&self, sample: Sample) -> Option<Step>
        ensures wrapped { step_of result ≡ wrapped_raised_at (face_of self.now) (sample_of sample) }
        ensures exact { NearFace (face_of self.now) → NearSample (sample_of sample) → step_of result ≡ raised_at (face_of self.now) (sample_of sample) }
    {
        match self.covers(sample) {
            Cover::Up | Cover::Down => Some(self.next_above(sample)),
            Cover::Beside => None,
        }
    }
}
