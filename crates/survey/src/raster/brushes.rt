// Brushes: what is done at each pixel that an outline covers.
ghost use Rattle.std.specs.Prelude.{◌≡◌, ℕ, ℤ, pos, if◌then◌else◌, Some, None, Option, int_lt};
ghost use Rattle.planes.specs.Planes.{same, is_height};
ghost use Rattle.survey.specs.Raster.{Painted};
ghost use Rattle.survey.specs.Tilts.{turn_of};
ghost use Rattle.survey.specs.RasterTilts.{value_on, least_on};

use crate::raster::facing::Facing;
use crate::raster::tilts::Tilt;
use geometry::units::{Column, Row};
use planes::plane::Plane;

// What is done at each pixel that an outline covers.
pub trait Brush {
    // what it lays on the pixel of a column and a row
    ghost lays: { Self → ℕ → ℕ → Option ℤ };

    // what it adds to the count of a pixel of a column, a row and a height
    ghost adds: { Self → ℕ → ℕ → ℤ → ℤ };

    // Does it at one pixel. Nothing outside the window.
    fn touch<P: Plane>(&self, plane: &mut P, column: Column, row: Row)
        ensures after { Painted (P.Plane.model plane.old) (same column.0 row.0) (lays self.now) (adds self.now) (P.Plane.model plane.new) }
        ensures names { P.Plane.names plane.new ≡ P.Plane.names plane.old };
}

// Counts a face of this tilt, which looks this way, at each pixel that it is below.
#[derive(Clone, Copy)]
pub struct Crossing {
    pub tilt: Tilt,
    pub facing: Facing,
}

impl Brush for Crossing {
    ghost lays = { λ _ _ _. None };

    ghost adds = { λ b i j h. (if int_lt (pos 0) (value_on b.tilt i j h) then turn_of b.facing else pos 0) };

    fn touch<P: Plane>(&self, plane: &mut P, column: Column, row: Row) {
        // `plane.height(..)` would be one more call at each pixel: that of the borrowed plane, around the plane's own.
        let Some(height) = P::height(plane, column, row) else {
            return;
        };
        if self.tilt.is_below(column, row, height) {
            match self.facing {
                Facing::Up => plane.less(column, row),
                Facing::Down => plane.more(column, row),
            }
        }
    }
}

// Raises each pixel to the whole number above a plane of this tilt.
#[derive(Clone, Copy)]
pub struct Laying {
    pub tilt: Tilt,
}

impl Brush for Laying {
    ghost lays = { λ b i j. (if is_height (least_on b.tilt i j) then Some (least_on b.tilt i j) else None) };

    ghost adds = { λ _ _ _ _. pos 0 };

    fn touch<P: Plane>(&self, plane: &mut P, column: Column, row: Row) {
        plane.raise(column, row, self.tilt.least_over(column, row));
    }
}
