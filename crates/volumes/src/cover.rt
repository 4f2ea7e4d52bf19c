// Which samples a face covers, seen from above: the top-left fill rule.
ghost use Rattle.std.specs.Prelude.{◌≡◌, ◌^◌, [], ◌∷◌};
ghost use Rattle.geometry.specs.Machine.{vector_of, sign_is};
ghost use Rattle.volumes.specs.Faces.{receiver, side_sign, side_signs, pixel_sample};
ghost use Rattle.volumes.specs.Machine.{face_of, sample_of, cover_by, cover_along, weight_of};
ghost use Rattle.volumes.specs.Wrapped.{wrapped_side_sign, wrapped_side_signs};
ghost use Rattle.volumes.specs.Near.{Within, NearFace, NearSample};

use crate::face::Face;
use geometry::sign::Sign;
use geometry::units::{Column, Row, Step};
use geometry::vector::{Vector, cross, difference};

// The place of the plan at which a pixel is tested. It may be any: that it is near the plan is a premise where a clause needs it.
#[derive(Clone, Copy, PartialEq, Eq, Debug)]
pub struct Sample {
    pub x: Step,
    pub y: Step,
}

impl Sample {
    // The middle of a pixel.
    pub fn of(column: Column, row: Row) -> Sample
        ensures { sample_of result ≡ pixel_sample column.0 row.0 }
    {
        Sample {
            x: column.sample(),
            y: row.sample(),
        }
    }

    // The point of the height z above it.
    pub fn receiver(self, z: Step) -> Vector
        ensures { vector_of result ≡ receiver (sample_of self) z.0 }
    {
        [self.x.0, self.y.0, z.0]
    }
}

// On which side of the side from u to v the sample lies. One that lies on the side counts as a hair to the right, then down.
pub fn side_sign(u: Vector, v: Vector, sample: Sample) -> Sign
    ensures wrapped { sign_is result ≡ wrapped_side_sign (vector_of u) (vector_of v) (sample_of sample) }
    ensures exact { Within (2 ^ 25) (vector_of u) → Within (2 ^ 25) (vector_of v) → NearSample (sample_of sample) → sign_is result ≡ side_sign (vector_of u) (vector_of v) (sample_of sample) }
{
    let side = difference(v, u);
    let across = cross(side, difference(sample.receiver(Step(0)), u));
    Sign::of(across[2])
        .or_else(Sign::of_negative(side[1]))
        .or_else(Sign::of(side[0]))
}

// How a face covers a sample: upwards, downwards or not. An `Option` of a way would be no plainer: side signs and weights have three cases.
#[derive(Clone, Copy, PartialEq, Eq, Debug)]
pub enum Cover {
    Up,
    Down,
    Beside,
}

// What one side says alone.
impl From<Sign> for Cover {
    ghost from_gives = { λ side cover. cover ≡ cover_by (sign_is side ∷ []) };

    fn from(side: Sign) -> Cover {
        match side {
            Sign::Positive => Cover::Up,
            Sign::Negative => Cover::Down,
            Sign::Zero => Cover::Beside,
        }
    }
}

impl Cover {
    // The same with one more side: all have to agree.
    fn along(self, side: Sign) -> Cover
        ensures { result ≡ cover_along self (sign_is side) }
    {
        match (self, side) {
            (Cover::Up, Sign::Positive) => Cover::Up,
            (Cover::Down, Sign::Negative) => Cover::Down,
            _ => Cover::Beside,
        }
    }

    // What a face that covers so adds to the count of a receiver above it.
    pub fn weight(self) -> i64
        ensures { result ≡ weight_of self }
    {
        match self {
            Cover::Up => -1,
            Cover::Down => 1,
            Cover::Beside => 0,
        }
    }
}

impl Face {
    // How the face covers the sample: upwards if all its side signs are positive, downwards if all are negative.
    pub fn covers(&self, sample: Sample) -> Cover
        ensures wrapped { result ≡ cover_by (wrapped_side_signs (face_of self.now) (sample_of sample)) }
        ensures exact { NearFace (face_of self.now) → NearSample (sample_of sample) → result ≡ cover_by (side_signs (face_of self.now) (sample_of sample)) }
    {
        let first = side_sign(self.first, self.second, sample);
        let second = side_sign(self.second, self.third, sample);
        let cover = Cover::from(first).along(second);
        match self.fourth {
            None => cover.along(side_sign(self.third, self.first, sample)),
            Some(fourth) => cover
                .along(side_sign(self.third, fourth, sample))
                .along(side_sign(fourth, self.first, sample)),
        }
    }
}
