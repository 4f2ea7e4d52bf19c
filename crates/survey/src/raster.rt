// Rasterising: drawing a face of a shadow volume, or laying a triangle, on any plane.
mod brushes;
mod corners;
mod facing;
mod outlines;
mod projections;
mod sides;
mod spans;
mod sweeps;
mod tilts;

ghost use Rattle.std.specs.Prelude.{◌≡◌};
ghost use Rattle.geometry.specs.Limits.{InLimits};
ghost use Rattle.geometry.specs.Units.{point_of};
ghost use Rattle.volumes.specs.Machine.{face_of};
ghost use Rattle.survey.specs.Drawing.{Drawn, LaidOn};
ghost use Rattle.survey.specs.Raster.{Drawable};

use brushes::{Crossing, Laying};
use geometry::facet::Facet;
use planes::plane::Plane;
use projections::Projection;
use sweeps::sweep;
use volumes::face::Face;

// Counts the face at each pixel of the window that it covers and is below.
pub(crate) fn draw_face<P: Plane>(plane: &mut P, face: &Face)
    requires { Drawable (face_of face.now) }
    ensures after { Drawn (P.Plane.model plane.old) (face_of face.now) (P.Plane.model plane.new) }
    ensures names { P.Plane.names plane.new ≡ P.Plane.names plane.old }
{
    if let Some(seen) = Projection::of(face) {
        let brush = Crossing {
            tilt: seen.tilt,
            facing: seen.facing,
        };
        sweep(plane, &seen.outline, brush);
    }
}

// Raises each pixel of the window that the triangle covers to the whole number above it. Limits are asked corner by corner, as the law of
// solids promises them.
pub(crate) fn lay_triangle<P: Plane>(plane: &mut P, facet: Facet)
    requires a { InLimits (point_of facet.a) }
    requires b { InLimits (point_of facet.b) }
    requires c { InLimits (point_of facet.c) }
    ensures after { LaidOn (P.Plane.model plane.old) (point_of facet.a) (point_of facet.b) (point_of facet.c) (P.Plane.model plane.new) }
    ensures names { P.Plane.names plane.new ≡ P.Plane.names plane.old }
{
    let face = Face::near_cap(facet);
    if let Some(seen) = Projection::of(&face) {
        sweep(plane, &seen.outline, Laying { tilt: seen.tilt });
    }
}
