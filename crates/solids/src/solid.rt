// What a solid is to all that uses one.
ghost use Rattle.std.specs.Prelude.{◌≡◌, ℕ, ◌*◌, true, false, ltb, if◌then◌else◌, Some, None, MatchOption, nat_lt};
ghost use Rattle.geometry.specs.Units.{point_of};
ghost use Rattle.solids.specs.Solids.{SolidModel, Lawful, places, corners_of};

use geometry::units::Point;

// A triangle of a solid, by the numbers of its corners, counted from 0. Its outside is where they turn against the clock.
#[derive(Clone, Copy, PartialEq, Eq, Debug)]
pub struct Triangle {
    pub a: u32,
    pub b: u32,
    pub c: u32,
}

// A closed solid: corners, triangles, and for each side of a triangle the one side that joins the same two corners the other way,
// its partner. Side s (0, 1, 2) of triangle k has the place 3k + s. Asking alters nothing.
pub trait Solid {
    // what the solid is, as a value of the logic
    ghost model: { Self → SolidModel };

    // each solid owes the law
    ghost lawful: { (s : Self) → Lawful (model s) };

    // How many corners there are.
    fn corners(&self) -> usize
        ensures { result ≡ (model self.now).corners };

    // How many triangles there are.
    fn triangles(&self) -> usize
        ensures { result ≡ (model self.now).triangles };

    // The corner of a number; none past the end.
    fn corner(&self, number: usize) -> Option<Point>
        ensures { MatchOption result (nat_lt number (model self.now).corners ≡ false) (λ p. (nat_lt number (model self.now).corners ≡ true) × (point_of p ≡ (model self.now).corner number)) };

    // The triangle of a number; none past the end.
    fn triangle(&self, number: usize) -> Option<Triangle>
        ensures { MatchOption result (nat_lt number (model self.now).triangles ≡ false) (λ t. (nat_lt number (model self.now).triangles ≡ true) × (corners_of t ≡ (model self.now).triangle number)) };

    // The partner of the side at a place; none past the end.
    fn partner(&self, place: usize) -> Option<usize>
        ensures { result ≡ (if ltb place (places (model self.now)) then Some ((model self.now).partner place) else None) };
}

// A borrowed solid is a solid. Each call is passed on by hand, as std's traits do it: there is no plainer form.
impl<S: Solid> Solid for &S {
    ghost model = { λ s. S.Solid.model s.now };

    ghost lawful = { λ s. S.Solid.lawful s.now };

    fn corners(&self) -> usize {
        (**self).corners()
    }

    fn triangles(&self) -> usize {
        (**self).triangles()
    }

    fn corner(&self, number: usize) -> Option<Point> {
        (**self).corner(number)
    }

    fn triangle(&self, number: usize) -> Option<Triangle> {
        (**self).triangle(number)
    }

    fn partner(&self, place: usize) -> Option<usize> {
        (**self).partner(place)
    }
}
