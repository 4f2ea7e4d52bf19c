// What a plane is to all that uses one.
ghost use Rattle.std.specs.Prelude.{◌≡◌, ℕ, ◌-◌, true, false, List, ◌∷◌, if◌then◌else◌, Some, None, MatchOption};
ghost use Rattle.planes.specs.Planes.{PlaneModel, Sound, inside, Wiped, Raised, Counted};

use geometry::units::{Column, Row, Step};

// The part of a plane that may be drawn on: columns c0 to c1 - 1 and rows r0 to r1 - 1; four zeros if it is empty.
#[derive(Clone, Copy, PartialEq, Eq, Debug)]
pub struct Window {
    pub c0: Column,
    pub r0: Row,
    pub c1: Column,
    pub r1: Row,
}

impl Window {
    // No pixels.
    pub const EMPTY: Window = Window {
        c0: Column(0),
        r0: Row(0),
        c1: Column(0),
        r1: Row(0),
    };
}

// A height and a count for each pixel. Counts wrap at the plane's modulus. Questions alter nothing; changes alter heights and counts
// only, never the width, the rows, the modulus or the window. A rule of the project names these calls, `more` and `less` among them, and
// gives each a column and a row, which are types of their own.
pub trait Plane {
    // what the plane holds, as a value of the logic
    ghost model: { Self → PlaneModel };

    // each plane keeps the limits
    ghost sound: { (p : Self) → Sound (model p) };

    // The names of the references that the plane holds, which no call changes: so whoever lent them knows what they hold after. Each change
    // says so by a clause of its own, since a model is a value and has no references.
    ghost names: { Self → List ℕ };

    fn width(&self) -> u16
        ensures { result ≡ (model self.now).width };

    fn rows(&self) -> u16
        ensures { result ≡ (model self.now).rows };

    // Counts are below this number, and wrap there.
    fn modulus(&self) -> u32
        ensures { result ≡ (model self.now).modulus };

    fn window(&self) -> Window
        ensures c0 { result.c0.0 ≡ (model self.now).c0 }
        ensures r0 { result.r0.0 ≡ (model self.now).r0 }
        ensures c1 { result.c1.0 ≡ (model self.now).c1 }
        ensures r1 { result.r1.0 ≡ (model self.now).r1 };

    // The height of a pixel; none outside the plane.
    fn height(&self, column: Column, row: Row) -> Option<Step>
        ensures { MatchOption result (inside (model self.now) column.0 row.0 ≡ false) (λ h. (inside (model self.now) column.0 row.0 ≡ true) × (h.0 ≡ (model self.now).height column.0 row.0)) };

    // The count of a pixel; none outside the plane.
    fn count(&self, column: Column, row: Row) -> Option<u32>
        ensures { result ≡ (if inside (model self.now) column.0 row.0 then Some ((model self.now).count column.0 row.0) else None) };

    // Every height becomes the ground and every count 0, in the window or not. Nothing where the ground is no height.
    fn wipe(&mut self, ground: Step)
        ensures after { Wiped (model self.old) ground.0 (model self.new) }
        ensures names { names self.new ≡ names self.old };

    // The pixel's height becomes the greater of itself and `to`. Nothing outside the window, or where `to` is no height.
    fn raise(&mut self, column: Column, row: Row, to: Step)
        ensures after { Raised (model self.old) column.0 row.0 to.0 (model self.new) }
        ensures names { names self.new ≡ names self.old };

    // One more in the pixel's count, modulo the modulus. Nothing outside the window.
    fn more(&mut self, column: Column, row: Row)
        ensures after { Counted (model self.old) column.0 row.0 1 (model self.new) }
        ensures names { names self.new ≡ names self.old };

    // One less in the pixel's count, modulo the modulus. Nothing outside the window.
    fn less(&mut self, column: Column, row: Row)
        ensures after { Counted (model self.old) column.0 row.0 ((model self.old).modulus - 1) (model self.new) }
        ensures names { names self.new ≡ names self.old };
}

// A borrowed plane is a plane. Each call is passed on by hand, as std's traits do it: there is no plainer form.
impl<P: Plane> Plane for &mut P {
    ghost model = { λ p. P.Plane.model p.now };

    ghost sound = { λ p. P.Plane.sound p.now };

    ghost names = { λ p. p.ghost_name ∷ P.Plane.names p.now };

    fn width(&self) -> u16 {
        (**self).width()
    }

    fn rows(&self) -> u16 {
        (**self).rows()
    }

    fn modulus(&self) -> u32 {
        (**self).modulus()
    }

    fn window(&self) -> Window {
        (**self).window()
    }

    fn height(&self, column: Column, row: Row) -> Option<Step> {
        (**self).height(column, row)
    }

    fn count(&self, column: Column, row: Row) -> Option<u32> {
        (**self).count(column, row)
    }

    fn wipe(&mut self, ground: Step) {
        (**self).wipe(ground);
    }

    fn raise(&mut self, column: Column, row: Row, to: Step) {
        (**self).raise(column, row, to);
    }

    fn more(&mut self, column: Column, row: Row) {
        (**self).more(column, row);
    }

    fn less(&mut self, column: Column, row: Row) {
        (**self).less(column, row);
    }
}
