// Beginning a survey, laying solids on its plane, and closing it for casts.
ghost use Rattle.std.specs.Prelude.{◌≡◌, MatchResult};
ghost use Rattle.std.specs.Result.{result_err};
ghost use Rattle.survey.specs.Survey.{laying_of, casting_of};
ghost use Rattle.survey.specs.Refusals.{is_ground, begin_refusal, lay_refusal};
ghost use Rattle.survey.specs.Changes.{Begun, Laid};
ghost use Rattle.survey.specs.Account.{bare, Stands, Undisturbed, CarriesLay};

use crate::raster::lay_triangle;
use crate::state::{Casting, Laying, Shape, has_pixels};
use crate::triangles::SolidTriangle;
use geometry::limits::is_between;
use geometry::refusal::Refusal;
use geometry::units::Step;
use planes::plane::Plane;
use solids::solid::Solid;

// Whether the ground can have this height.
fn is_ground(height: Step) -> bool
    ensures { result ≡ is_ground height.0 }
{
    is_between(-8192, 8192, height.0)
}

// Begins a survey on a plane: every height becomes the ground, every count 0.
pub fn begin<P: Plane>(plane: &mut P, ground: Step) -> Result<Laying, Refusal>
    ensures refuses { result_err result ≡ begin_refusal (P.Plane.model plane.old) ground.0 }
    ensures names { P.Plane.names plane.new ≡ P.Plane.names plane.old }
    ensures after { MatchResult result (λ s. Begun (P.Plane.model plane.old) ground.0 (laying_of s) (P.Plane.model plane.new)) (λ _. plane.new ≡ plane.old) }
    ensures stands { MatchResult result (λ s. Stands (bare ground.0) (P.Plane.model plane.new) (laying_of s)) (λ _. Undisturbed (P.Plane.model plane.old) (P.Plane.model plane.new)) }
{
    if !has_pixels(plane) {
        return Err(Refusal::Plane);
    }
    if !is_ground(ground) {
        return Err(Refusal::Ground);
    }
    let shape = Shape::of(plane);
    plane.wipe(ground);
    Ok(Laying { shape })
}

// Lays the triangles of a solid on every pixel of the window that they cover.
fn lay_triangles<P: Plane, S: Solid>(plane: &mut P, solid: &S)
    ensures after { Laid (P.Plane.model plane.old) (S.Solid.model solid.now) (P.Plane.model plane.new) }
    ensures names { P.Plane.names plane.new ≡ P.Plane.names plane.old }
{
    for number in 0..solid.triangles() {
        let triangle = SolidTriangle { solid, number };
        let facet = triangle.facet();
        lay_triangle(plane, facet);
    }
}

// Lays a solid: each pixel of the window becomes at least as high as what the solid's triangles lay on it.
pub fn lay<P: Plane, S: Solid>(survey: &Laying, plane: &mut P, solid: &S) -> Result<(), Refusal>
    ensures refuses { result_err result ≡ lay_refusal (laying_of survey.now) (P.Plane.model plane.old) (S.Solid.model solid.now) }
    ensures names { P.Plane.names plane.new ≡ P.Plane.names plane.old }
    ensures after { MatchResult result (λ _. Laid (P.Plane.model plane.old) (S.Solid.model solid.now) (P.Plane.model plane.new)) (λ _. plane.new ≡ plane.old) }
    ensures stands { MatchResult result (λ _. CarriesLay (laying_of survey.now) (P.Plane.model plane.old) (S.Solid.model solid.now) (P.Plane.model plane.new)) (λ _. Undisturbed (P.Plane.model plane.old) (P.Plane.model plane.new)) }
{
    if !survey.shape.fits(plane) {
        return Err(Refusal::Plane);
    }
    if solid.triangles() == 0 {
        return Err(Refusal::Empty);
    }
    lay_triangles(plane, solid);
    Ok(())
}

// Ends the laying: from now on solids are cast.
pub fn close(survey: Laying) -> Casting
    ensures { casting_of result ≡ laying_of survey }
{
    let Laying { shape } = survey;
    Casting { shape, total: 0 }
}
