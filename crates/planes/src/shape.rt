// The shape of a plane whose pixels lie row by row.
ghost use Rattle.std.specs.Prelude.{◌≡◌, ℕ, ◌+◌, ◌*◌, ◌<◌, ◌≤◌, true, false, IfSome, MatchOption, ◌==◌};
ghost use Rattle.planes.specs.Rowwise.{fits, place_of};

use crate::plane::Window;
use geometry::units::{Column, Row};

// A width and a number of rows: both from 1 to 256, or both 0.
#[derive(Clone, Copy)]
pub(crate) struct Shape {
    pub(crate) width: u16,
    pub(crate) rows: u16,
    ghost narrow: { width ≤ 256 },
    ghost short: { rows ≤ 256 },
    ghost whole: { (width == 0) ≡ (rows == 0) },
}

impl Shape {
    // No pixels.
    pub(crate) const EMPTY: Shape = Shape { width: 0, rows: 0 };

    // The shape of that width and number of rows, each 1 to 256, if a list of that length holds its pixels, one at each place. The two
    // numbers are the caller's, and any: a type for both would be made only to be taken apart here. An `if`, since a closure for `then` has to ask
    // for the bounds again.
    pub(crate) fn of(width: usize, rows: usize, length: usize) -> Option<Shape>
        ensures { MatchOption result (fits width rows length ≡ false) (λ s. (fits width rows length ≡ true) × (s.width ≡ width) × (s.rows ≡ rows)) }
    {
        if (1..=256).contains(&width) && (1..=256).contains(&rows) && length == width * rows {
            Some(Shape {
                width: width as u16,
                rows: rows as u16,
            })
        } else {
            None
        }
    }

    // How many pixels there are.
    pub(crate) fn pixels(self) -> usize
        ensures { result ≡ self.width * self.rows }
    {
        self.width as usize * self.rows as usize
    }

    // The place of a pixel; none outside the plane.
    pub(crate) fn place(self, column: Column, row: Row) -> Option<usize>
        ensures place { result ≡ place_of self.width self.rows column.0 row.0 }
        ensures within { IfSome result (λ at. at < self.width * self.rows) }
    {
        if column.0 < self.width && row.0 < self.rows {
            Some(row.0 as usize * self.width as usize + column.0 as usize)
        } else {
            None
        }
    }

    // The whole plane.
    pub(crate) fn window(self) -> Window
        ensures { (result.c0.0 ≡ 0) × ((result.r0.0 ≡ 0) × ((result.c1.0 ≡ self.width) × (result.r1.0 ≡ self.rows))) }
    {
        Window {
            c0: Column(0),
            r0: Row(0),
            c1: Column(self.width),
            r1: Row(self.rows),
        }
    }
}
