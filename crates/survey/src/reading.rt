// Reading a survey: the mark of a pixel.
ghost use Rattle.std.specs.Prelude.{◌≡◌, true, IfOk};
ghost use Rattle.std.specs.Result.{result_err};
ghost use Rattle.planes.specs.Planes.{in_window};
ghost use Rattle.survey.specs.Survey.{casting_of, mark_of};
ghost use Rattle.survey.specs.Refusals.{look_refusal};
ghost use Rattle.survey.specs.Account.{Account, Stands, Told};

use crate::mark::Mark;
use crate::state::Casting;
use geometry::refusal::Refusal;
use geometry::units::{Column, Row};
use planes::plane::Plane;

// Whether a pixel lies in the window of a plane.
fn is_in_window<P: Plane>(plane: &P, column: Column, row: Row) -> bool
    ensures { result ≡ in_window (P.Plane.model plane.now) column.0 row.0 }
{
    let window = plane.window();
    (window.c0.0..window.c1.0).contains(&column.0) && (window.r0.0..window.r1.0).contains(&row.0)
}

// The count of a pixel in the window of a plane.
fn count_at<P: Plane>(plane: &P, column: Column, row: Row) -> u32
    requires { in_window (P.Plane.model plane.now) column.0 row.0 ≡ true }
    ensures { result ≡ (P.Plane.model plane.now).count column.0 row.0 }
{
    plane.count(column, row).unwrap()
}

// The mark of a pixel of the window, with its count and the number of sunward triangles cast: a tuple of three, by a rule of the project.
pub fn look<P: Plane>(
    survey: &Casting,
    plane: &P,
    column: Column,
    row: Row,
) -> Result<(Mark, u32, u32), Refusal>
    ensures refuses { result_err result ≡ look_refusal (casting_of survey.now) (P.Plane.model plane.now) column.0 row.0 }
    ensures mark { IfOk result (λ t. t.0 ≡ mark_of (P.Plane.model plane.now).modulus t.1 t.2) }
    ensures count { IfOk result (λ t. t.1 ≡ (P.Plane.model plane.now).count column.0 row.0) }
    ensures total { IfOk result (λ t. t.2 ≡ (casting_of survey.now).total) }
    ensures stands { (a : Account) → Stands a (P.Plane.model plane.now) (casting_of survey.now) → IfOk result (λ t. Told a (P.Plane.model plane.now).modulus column.0 row.0 t.0 t.1 t.2) }
{
    if !survey.shape.fits(plane) {
        return Err(Refusal::Plane);
    }
    if !is_in_window(plane, column, row) {
        return Err(Refusal::Pixel);
    }
    let count = count_at(plane, column, row);
    let mark = Mark::of(plane.modulus(), count, survey.total);
    Ok((mark, count, survey.total))
}
