// Casting solids: their shadow volumes are counted on the survey's plane.
ghost use Rattle.std.specs.Prelude.{◌≡◌, ◌+◌, ◌<◌, MatchResult};
ghost use Rattle.std.specs.Result.{result_err};
ghost use Rattle.geometry.specs.Light.{run_of};
ghost use Rattle.solids.specs.Solids.{places};
ghost use Rattle.volumes.specs.Volumes.{sunward_total};
ghost use Rattle.survey.specs.Survey.{casting_of};
ghost use Rattle.survey.specs.Refusals.{cast_refusal};
ghost use Rattle.survey.specs.Changes.{Tallied, Shadowed, caps_of, wall_on, walls_of, faces_of};
ghost use Rattle.survey.specs.Account.{Undisturbed, CarriesCast};

use crate::light::Light;
use crate::raster::draw_face;
use crate::state::Casting;
use crate::triangles::{SolidTriangle, ends_of};
use geometry::light::Run;
use geometry::refusal::Refusal;
use planes::plane::Plane;
use solids::solid::Solid;
use volumes::face::Face;

// The sunward triangles that a survey may cast in all.
const MOST: u64 = 1_000_000;

// The plane is lent to be changed and the solid to be asked: a type that holds both would have to promise of each call that the solid stays.
impl Light {
    // How many triangles of a solid are sunward.
    fn count_sunward<S: Solid>(self, solid: &S) -> u32
        ensures { result ≡ sunward_total (S.Solid.model solid.now) (run_of self.run) }
    {
        let mut sunward = 0;
        // A `filter(..).count()` would be given numbers that may name no triangle: one test more for each, and one case more to prove.
        for number in 0..solid.triangles() {
            let triangle = SolidTriangle { solid, number };
            if triangle.is_sunward(self) {
                sunward += 1;
            }
        }
        sunward
    }

    // Draws the two caps of a triangle.
    fn cast_caps<P: Plane, S: Solid>(self, plane: &mut P, triangle: &SolidTriangle<S>)
        ensures after { Tallied (P.Plane.model plane.old) (caps_of (S.Solid.model triangle.now.solid.now) (run_of self.run) triangle.now.number) (P.Plane.model plane.new) }
        ensures names { P.Plane.names plane.new ≡ P.Plane.names plane.old }
    {
        let facet = triangle.facet();
        draw_face(plane, &Face::near_cap(facet));
        draw_face(plane, &Face::far_cap(facet, self.extent));
    }

    // Draws the wall on the side at a place, if the side is on the silhouette: if its partner's triangle is not sunward.
    fn cast_wall<P: Plane, S: Solid>(self, plane: &mut P, solid: &S, place: usize)
        requires { place < places (S.Solid.model solid.now) }
        ensures after { Tallied (P.Plane.model plane.old) (wall_on (S.Solid.model solid.now) (run_of self.run) place) (P.Plane.model plane.new) }
        ensures names { P.Plane.names plane.new ≡ P.Plane.names plane.old }
    {
        let partner = solid.partner(place).unwrap();
        let triangle = SolidTriangle {
            solid,
            number: partner / 3,
        };
        if !triangle.is_sunward(self) {
            let (u, v) = ends_of(solid, place);
            draw_face(plane, &Face::wall(u, v, self.extent));
        }
    }

    // Draws the walls on the silhouette sides of a triangle.
    fn cast_walls<P: Plane, S: Solid>(self, plane: &mut P, triangle: &SolidTriangle<S>)
        ensures after { Tallied (P.Plane.model plane.old) (walls_of (S.Solid.model triangle.now.solid.now) (run_of self.run) triangle.now.number) (P.Plane.model plane.new) }
        ensures names { P.Plane.names plane.new ≡ P.Plane.names plane.old }
    {
        let number = triangle.number;
        self.cast_wall(plane, triangle.solid, 3 * number);
        self.cast_wall(plane, triangle.solid, 3 * number + 1);
        self.cast_wall(plane, triangle.solid, 3 * number + 2);
    }

    // Draws the faces that a triangle gives to the shadow volume: none if it is not sunward.
    fn cast_triangle<P: Plane, S: Solid>(self, plane: &mut P, triangle: &SolidTriangle<S>)
        ensures after { Tallied (P.Plane.model plane.old) (faces_of (S.Solid.model triangle.now.solid.now) (run_of self.run) triangle.now.number) (P.Plane.model plane.new) }
        ensures names { P.Plane.names plane.new ≡ P.Plane.names plane.old }
    {
        if triangle.is_sunward(self) {
            self.cast_caps(plane, triangle);
            self.cast_walls(plane, triangle);
        }
    }

    // Draws the shadow volume of a solid.
    fn cast_volume<P: Plane, S: Solid>(self, plane: &mut P, solid: &S)
        ensures after { Shadowed (P.Plane.model plane.old) (S.Solid.model solid.now) (run_of self.run) (P.Plane.model plane.new) }
        ensures names { P.Plane.names plane.new ≡ P.Plane.names plane.old }
    {
        for number in 0..solid.triangles() {
            self.cast_triangle(plane, &SolidTriangle { solid, number });
        }
    }
}

// Casts a solid: each pixel of the window counts how often the solid's triangles strike its receiver, and the total grows by the number of
// sunward triangles, which are counted before the first face is drawn.
pub fn cast<P: Plane, S: Solid>(
    survey: &mut Casting,
    plane: &mut P,
    solid: &S,
    run: Run,
) -> Result<(), Refusal>
    ensures refuses { result_err result ≡ cast_refusal (casting_of survey.old) (P.Plane.model plane.old) (S.Solid.model solid.now) (run_of run) }
    ensures names { P.Plane.names plane.new ≡ P.Plane.names plane.old }
    ensures after { MatchResult result (λ _. Shadowed (P.Plane.model plane.old) (S.Solid.model solid.now) (run_of run) (P.Plane.model plane.new)) (λ _. plane.new ≡ plane.old) }
    ensures survey { MatchResult result (λ _. casting_of survey.new ≡ record { shape = (casting_of survey.old).shape; total = (casting_of survey.old).total + sunward_total (S.Solid.model solid.now) (run_of run) }) (λ _. survey.new ≡ survey.old) }
    ensures stands { MatchResult result (λ _. CarriesCast (casting_of survey.old) (P.Plane.model plane.old) (S.Solid.model solid.now) (run_of run) (casting_of survey.new) (P.Plane.model plane.new)) (λ _. Undisturbed (P.Plane.model plane.old) (P.Plane.model plane.new)) }
{
    if !survey.shape.fits(plane) {
        return Err(Refusal::Plane);
    }
    if solid.triangles() == 0 {
        return Err(Refusal::Empty);
    }
    let light = Light::try_from(run)?;
    let total = survey.total as u64 + light.count_sunward(solid) as u64;
    if total > MOST {
        return Err(Refusal::Total);
    }
    light.cast_volume(plane, solid);
    survey.total = total as u32;
    Ok(())
}
