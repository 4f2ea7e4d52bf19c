// Faces seen from above.
ghost use Rattle.std.specs.Prelude.{◌≡◌, None, MatchOption};
ghost use Rattle.volumes.specs.Machine.{face_of};
ghost use Rattle.survey.specs.Raster.{Drawable};
ghost use Rattle.survey.specs.Tilts.{facing_of};
ghost use Rattle.survey.specs.Projections.{Projects};

use crate::raster::facing::Facing;
use crate::raster::outlines::Outline;
use crate::raster::tilts::Tilt;
use volumes::face::Face;

// What a face is painted by: the pixels that it covers, the function of its plane, and the way it looks.
#[derive(Clone, Copy)]
pub struct Projection {
    pub outline: Outline,
    pub tilt: Tilt,
    pub facing: Facing,
}

impl Projection {
    // The face seen from above; none if it is seen on edge.
    pub(crate) fn of(face: &Face) -> Option<Projection>
        requires { Drawable (face_of face.now) }
        ensures { MatchOption result (None ≡ facing_of (face_of face.now).normal.z) (λ p. Projects (face_of face.now) p) }
    {
        let facing = Facing::of(face.normal[2])?;
        let outline = Outline::of(face, facing);
        let tilt = Tilt::facing(face.normal, face.first, facing);
        Some(Projection {
            outline,
            tilt,
            facing,
        })
    }
}
