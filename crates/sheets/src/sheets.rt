// Sheets of two triangles each, back to back.
ghost use Rattle.std.specs.Prelude.{◌≡◌, ◌*◌, ◌/◌, ◌≤◌, min, MatchOption};
ghost use Rattle.sheets.specs.Model.{sheets_of, sheets_lawful};

use geometry::units::Point;
use solids::solid::{Solid, Triangle};

// So many corners and so many pairs of triangles: at most 32,768 of each, and no triangles without three corners.
#[derive(Drop)]
pub struct Sheets {
    corners: usize,
    pairs: usize,
    ghost few: { corners ≤ 32768 },
    ghost fewer: { pairs ≤ 16384 * min 1 (corners / 3) },
}

impl Sheets {
    // The solid of these counts; none where there is no such solid. A closure for `then` would have to require the two limits again.
    pub fn new(corners: usize, pairs: usize) -> Option<Sheets>
        ensures { MatchOption result (corners ≤ 32768 → pairs ≤ 16384 * min 1 (corners / 3) → ⊥) (λ s. (s.corners ≡ corners) × (s.pairs ≡ pairs)) }
    {
        if corners <= 32768 && pairs <= 16384 * (corners / 3).min(1) {
            Some(Sheets { corners, pairs })
        } else {
            None
        }
    }
}

impl Solid for Sheets {
    ghost model = { λ s. sheets_of s.corners s.pairs };

    ghost lawful = { λ s. sheets_lawful s.corners s.pairs s.few s.fewer };

    fn corners(&self) -> usize {
        self.corners
    }

    fn triangles(&self) -> usize {
        2 * self.pairs
    }

    fn corner(&self, number: usize) -> Option<Point> {
        (number < self.corners).then(|| Point::new(0, 0, 0))
    }

    fn triangle(&self, number: usize) -> Option<Triangle> {
        (number < self.triangles()).then(|| {
            if number % 2 == 0 {
                Triangle { a: 0, b: 1, c: 2 }
            } else {
                Triangle { a: 0, b: 2, c: 1 }
            }
        })
    }

    fn partner(&self, place: usize) -> Option<usize> {
        (place < 3 * self.triangles()).then(|| 6 * (place / 6) + (5 - place % 6))
    }
}
