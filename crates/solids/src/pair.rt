// Two solids as one.
ghost use Rattle.std.specs.Prelude.{◌≡◌, true, false, MatchOption, MatchResult};
ghost use Rattle.solids.specs.Pairs.{fit, paired, paired_lawful};

use crate::solid::{Solid, Triangle};
use geometry::refusal::Refusal;
use geometry::units::Point;

// Two solids of any kinds, which may be pairs themselves. The second's corners and triangles are numbered on from the first's. Two
// that are too large together make the empty solid: ask `Pair::check` first.
#[derive(Drop)]
pub struct Pair<A, B> {
    first: A,
    second: B,
}

// Whether two solids have few enough corners and triangles to make a pair.
fn fits<A: Solid, B: Solid>(first: &A, second: &B) -> bool
    ensures { result ≡ fit (A.Solid.model first.now) (B.Solid.model second.now) }
{
    first.corners() + second.corners() <= 32768 && first.triangles() + second.triangles() <= 32768
}

impl<A: Solid, B: Solid> Pair<A, B> {
    // Whether the pair of two solids is more than the empty solid: refused with `Refusal::Count` where they are too large together.
    pub fn check(first: &A, second: &B) -> Result<(), Refusal>
        ensures { MatchResult result (λ _. fit (A.Solid.model first.now) (B.Solid.model second.now) ≡ true) (λ e. (e ≡ Refusal.Count) × (fit (A.Solid.model first.now) (B.Solid.model second.now) ≡ false)) }
    {
        if fits(first, second) {
            Ok(())
        } else {
            Err(Refusal::Count)
        }
    }

    // The pair of two solids.
    pub fn new(first: A, second: B) -> Pair<A, B>
        ensures { (result.first ≡ first) × (result.second ≡ second) }
    {
        Pair { first, second }
    }

    // The two solids, where they fit together.
    fn parts(&self) -> Option<(&A, &B)>
        ensures { MatchOption result (fit (A.Solid.model self.now.first) (B.Solid.model self.now.second) ≡ false) (λ p. (fit (A.Solid.model self.now.first) (B.Solid.model self.now.second) ≡ true) × (p.0.now ≡ self.now.first) × (p.1.now ≡ self.now.second)) }
    {
        fits(&self.first, &self.second).then_some((&self.first, &self.second))
    }
}

impl<A: Solid, B: Solid> Solid for Pair<A, B> {
    ghost model = { λ s. paired (A.Solid.model s.first) (B.Solid.model s.second) };

    ghost lawful = { λ s. paired_lawful (A.Solid.model s.first) (B.Solid.model s.second) (A.Solid.lawful s.first) (B.Solid.lawful s.second) };

    fn corners(&self) -> usize {
        self.parts()
            .map_or(0, |(first, second)| first.corners() + second.corners())
    }

    fn triangles(&self) -> usize {
        self.parts().map_or(0, |(first, second)| first.triangles() + second.triangles())
    }

    fn corner(&self, number: usize) -> Option<Point> {
        let (first, second) = self.parts()?;
        let corners = first.corners();
        if number < corners {
            first.corner(number)
        } else {
            second.corner(number - corners)
        }
    }

    fn triangle(&self, number: usize) -> Option<Triangle> {
        let (first, second) = self.parts()?;
        let triangles = first.triangles();
        if number < triangles {
            return first.triangle(number);
        }
        let Triangle { a, b, c } = second.triangle(number - triangles)?;
        let corners = first.corners() as u32;
        Some(Triangle {
            a: corners + a,
            b: corners + b,
            c: corners + c,
        })
    }

    fn partner(&self, place: usize) -> Option<usize> {
        let (first, second) = self.parts()?;
        let places = 3 * first.triangles();
        if place < places {
            return first.partner(place);
        }
        let partner = second.partner(place - places)?;
        Some(places + partner)
    }
}
