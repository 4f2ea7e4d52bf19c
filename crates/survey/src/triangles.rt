// The triangles of a solid, one by one.
ghost use Rattle.std.specs.Prelude.{◌≡◌, ◌<◌};
ghost use Rattle.geometry.specs.Light.{run_of};
ghost use Rattle.geometry.specs.Units.{point_of};
ghost use Rattle.solids.specs.Solids.{places, start_of, end_of};
ghost use Rattle.volumes.specs.Volumes.{corner_of, sunward_at};

use crate::light::Light;
use geometry::facet::Facet;
use geometry::units::Point;
use solids::solid::Solid;

// One of a solid's triangles, by its number.
#[derive(Drop)]
pub(crate) struct SolidTriangle<'a, S: Solid> {
    pub(crate) solid: &'a S,
    pub(crate) number: usize,
    ghost there: { number < (S.Solid.model solid.now).triangles },
}

impl<'a, S: Solid> SolidTriangle<'a, S> {
    // Its corners.
    pub(crate) fn facet(&self) -> Facet
        ensures a { point_of result.a ≡ corner_of (S.Solid.model self.now.solid.now) self.now.number 0 }
        ensures b { point_of result.b ≡ corner_of (S.Solid.model self.now.solid.now) self.now.number 1 }
        ensures c { point_of result.c ≡ corner_of (S.Solid.model self.now.solid.now) self.now.number 2 }
    {
        let triangle = self.solid.triangle(self.number).unwrap();
        Facet {
            a: self.solid.corner(triangle.a as usize).unwrap(),
            b: self.solid.corner(triangle.b as usize).unwrap(),
            c: self.solid.corner(triangle.c as usize).unwrap(),
        }
    }

    // Whether it turns its outside to the light.
    pub(crate) fn is_sunward(&self, light: Light) -> bool
        ensures { result ≡ sunward_at (S.Solid.model self.now.solid.now) (run_of light.run) self.now.number }
    {
        self.facet().is_sunward(light.run)
    }
}

// The corners that the side at a place joins, from its start to its end. It asks any solid for points, where the matching of tables reads
// corner numbers: the two share no more than which corners a place means.
pub(crate) fn ends_of<S: Solid>(solid: &S, place: usize) -> (Point, Point)
    requires { place < places (S.Solid.model solid.now) }
    ensures start { point_of result.0 ≡ (S.Solid.model solid.now).corner (start_of (S.Solid.model solid.now) place) }
    ensures end { point_of result.1 ≡ (S.Solid.model solid.now).corner (end_of (S.Solid.model solid.now) place) }
{
    let triangle = SolidTriangle {
        solid,
        number: place / 3,
    };
    let facet = triangle.facet();
    match place % 3 {
        0 => (facet.a, facet.b),
        1 => (facet.b, facet.c),
        _ => (facet.c, facet.a),
    }
}
