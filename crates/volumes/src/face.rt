// The faces of a shadow volume: a triangle, the same swept along the light and turned over, and a wall on each of its sides.
ghost use Rattle.std.specs.Prelude.{◌≡◌};
ghost use Rattle.geometry.specs.Vectors.{V3};
ghost use Rattle.geometry.specs.Machine.{vector_of, wrapped3};
ghost use Rattle.geometry.specs.Units.{point_of};
ghost use Rattle.geometry.specs.Limits.{InLimits, LawfulRun};
ghost use Rattle.geometry.specs.Vectors as vectors;
ghost use Rattle.volumes.specs.Faces.{near_cap, far_cap, wall as wall_of};
ghost use Rattle.volumes.specs.Extent.{extent as extent_along};
ghost use Rattle.volumes.specs.Machine.{face_of};
ghost use Rattle.volumes.specs.Wrapped.{wrapped_face};

use geometry::facet::Facet;
use geometry::units::Point;
use geometry::vector::{Vector, cross, difference};

// A flat polygon: its corners in order, the fourth only where there are four, and its normal. Functions take any face, near the plan or
// not: so what is exact only near it is a premise of their clauses, where an invariant here would ask more of callers.
#[derive(Clone, Copy)]
pub struct Face {
    pub first: Vector,
    pub second: Vector,
    pub third: Vector,
    pub fourth: Option<Vector>,
    pub normal: Vector,
}

// The corner at the end of the sweep.
fn swept(corner: Point, extent: Vector) -> Vector
    ensures { vector_of result ≡ wrapped3 (vectors.plus (point_of corner) (vector_of extent)) }
{
    [
        corner.x.0.wrapping_add(extent[0]),
        corner.y.0.wrapping_add(extent[1]),
        corner.z.0.wrapping_add(extent[2]),
    ]
}

impl Face {
    // The facet itself.
    pub fn near_cap(facet: Facet) -> Face
        ensures wrapped { face_of result ≡ wrapped_face (near_cap (point_of facet.a) (point_of facet.b) (point_of facet.c)) }
        ensures exact { InLimits (point_of facet.a) → InLimits (point_of facet.b) → InLimits (point_of facet.c) → face_of result ≡ near_cap (point_of facet.a) (point_of facet.b) (point_of facet.c) }
    {
        Face {
            first: facet.a.into(),
            second: facet.b.into(),
            third: facet.c.into(),
            fourth: None,
            normal: facet.normal(),
        }
    }

    // The facet at the end of the sweep, turned over. To sweep it does not turn its normal.
    pub fn far_cap(facet: Facet, extent: Vector) -> Face
        ensures wrapped { face_of result ≡ wrapped_face (far_cap (point_of facet.a) (point_of facet.b) (point_of facet.c) (vector_of extent)) }
        ensures exact { (d : V3) → LawfulRun d → vector_of extent ≡ extent_along d → InLimits (point_of facet.a) → InLimits (point_of facet.b) → InLimits (point_of facet.c) → face_of result ≡ far_cap (point_of facet.a) (point_of facet.b) (point_of facet.c) (vector_of extent) }
    {
        let Facet { a, b, c } = facet;
        let turned = Facet { a: c, b, c: a };
        Face {
            first: swept(c, extent),
            second: swept(b, extent),
            third: swept(a, extent),
            fourth: None,
            normal: turned.normal(),
        }
    }

    // What the side from u to v sweeps. A side is given by its ends, which a caller has as points.
    pub fn wall(u: Point, v: Point, extent: Vector) -> Face
        ensures wrapped { face_of result ≡ wrapped_face (wall_of (point_of u) (point_of v) (vector_of extent)) }
        ensures exact { (d : V3) → LawfulRun d → vector_of extent ≡ extent_along d → InLimits (point_of u) → InLimits (point_of v) → face_of result ≡ wall_of (point_of u) (point_of v) (vector_of extent) }
    {
        let end = Vector::from(v);
        Face {
            first: u.into(),
            second: swept(u, extent),
            third: swept(v, extent),
            fourth: Some(end),
            normal: cross(extent, difference(end, u.into())),
        }
    }
}
