// The linear plane: a list of heights and a list of counts, row by row.
ghost use Rattle.std.specs.Prelude.{◌≡◌, ℕ, true, false, List, [], ◌∷◌, MatchOption, if◌then◌else◌};
ghost use Rattle.planes.specs.Rowwise.{verdict};
ghost use Rattle.planes.specs.Linear.{lists, lists_sound, linear_fits};

use crate::heights::Height;
use crate::rowwise::Rowwise;
use crate::shape::Shape;
use crate::store::{Store, fill_first};
use geometry::refusal::Refusal;

// The caller's lists, each with a number for each place, as a rule of the project lays them out. A number in the list of heights that is no
// height reads as the nearest height.
#[derive(Drop)]
pub struct Lists<'a> {
    heights: &'a mut [i32],
    counts: &'a mut [u16],
}

impl Store for Lists<'_> {
    ghost kept = { λ s. lists s.heights.now s.counts.now };

    ghost sound = { λ s. lists_sound s.heights.now s.counts.now };

    ghost names = { λ s. s.heights.ghost_name ∷ s.counts.ghost_name ∷ [] };

    fn modulus(&self) -> u32 {
        LinearPlane::MODULUS
    }

    fn height(&self, at: usize) -> Height {
        Height::nearest(self.heights[at])
    }

    fn count(&self, at: usize) -> u32 {
        self.counts[at] as u32
    }

    fn fill(&mut self, places: usize, ground: Height) {
        fill_first(self.heights, places, ground.value);
        fill_first(self.counts, places, 0);
    }

    fn raise(&mut self, at: usize, to: Height) {
        self.heights[at] = self.height(at).max(to).value;
    }

    fn more(&mut self, at: usize) {
        self.counts[at] = self.counts[at].wrapping_add(1);
    }

    fn less(&mut self, at: usize) {
        self.counts[at] = self.counts[at].wrapping_sub(1);
    }
}

// A plane over the caller's lists.
pub type LinearPlane<'a> = Rowwise<Lists<'a>>;

impl<'a> LinearPlane<'a> {
    // Counts wrap at this number.
    pub const MODULUS: u32 = 65536;

    // The shape of the plane that the lists hold, with a place for each pixel and no more; none where they do not.
    fn shape(heights: &[i32], counts: &[u16], width: usize, rows: usize) -> Option<Shape>
        ensures { MatchOption result (linear_fits width rows heights.now counts.now ≡ false) (λ s. (linear_fits width rows heights.now counts.now ≡ true) × (s.width ≡ width) × (s.rows ≡ rows)) }
    {
        Shape::of(width, rows, heights.len()).filter(|_| counts.len() == heights.len())
    }

    // Refuses lists that do not hold a plane of that width and number of rows, each 1 to 256, with a place for each pixel and no more.
    pub fn check(heights: &[i32], counts: &[u16], width: usize, rows: usize) -> Result<(), Refusal>
        ensures { result ≡ verdict (linear_fits width rows heights.now counts.now) }
    {
        Self::shape(heights, counts, width, rows).ok_or(Refusal::Plane)?;
        Ok(())
    }

    // The plane that the lists hold; of size 0 where the check refuses them.
    pub fn new(
        heights: &'a mut [i32],
        counts: &'a mut [u16],
        width: usize,
        rows: usize,
    ) -> LinearPlane<'a>
        ensures names { (result.store.heights.ghost_name ≡ heights.entry.ghost_name) × (result.store.counts.ghost_name ≡ counts.entry.ghost_name) }
        ensures lists { (result.store.heights.now ≡ heights.old) × (result.store.counts.now ≡ counts.old) }
        ensures size { (result.shape.width ≡ (if linear_fits width rows heights.old counts.old then width else 0)) × (result.shape.rows ≡ (if linear_fits width rows heights.old counts.old then rows else 0)) }
    {
        let shape = Self::shape(heights, counts, width, rows).unwrap_or(Shape::EMPTY);
        Rowwise {
            store: Lists { heights, counts },
            shape,
        }
    }
}
