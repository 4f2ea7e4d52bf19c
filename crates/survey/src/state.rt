// A survey's two states, each with a type of its own: solids are laid first, and cast after. Neither can be copied, so closing ends the first.
// By a rule of the project a survey is plain numbers, and its plane is handed to each call.
ghost use Rattle.std.specs.Prelude.{◌≡◌, ◌&&◌};
ghost use Rattle.survey.specs.Survey.{shape_of, numbers_of, has_pixels, same_numbers};

use planes::plane::{Plane, Window};

// The numbers of a plane that no call changes: by them a survey knows its plane again.
#[derive(Clone, Copy, PartialEq, Eq)]
pub(crate) struct Shape {
    width: u16,
    rows: u16,
    modulus: u32,
    window: Window,
}

// A survey while solids are laid.
#[derive(Drop)]
pub struct Laying {
    pub(crate) shape: Shape,
}

// A survey while solids are cast and read, with the number of sunward triangles cast so far.
#[derive(Drop)]
pub struct Casting {
    pub(crate) shape: Shape,
    pub(crate) total: u32,
}

impl Shape {
    // The numbers of a plane.
    pub(crate) fn of<P: Plane>(plane: &P) -> Shape
        ensures { numbers_of result ≡ shape_of (P.Plane.model plane.now) }
    {
        Shape {
            width: plane.width(),
            rows: plane.rows(),
            modulus: plane.modulus(),
            window: plane.window(),
        }
    }

    // Whether a plane has pixels and these numbers.
    pub(crate) fn fits<P: Plane>(&self, plane: &P) -> bool
        ensures { result ≡ (has_pixels (P.Plane.model plane.now) && same_numbers (numbers_of self.now) (shape_of (P.Plane.model plane.now))) }
    {
        has_pixels(plane) && *self == Shape::of(plane)
    }
}

// Whether a plane has pixels.
pub(crate) fn has_pixels<P: Plane>(plane: &P) -> bool
    ensures { result ≡ has_pixels (P.Plane.model plane.now) }
{
    plane.width() > 0 && plane.rows() > 0
}
