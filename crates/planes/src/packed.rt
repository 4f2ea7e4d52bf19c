// The packed plane: one list, row by row, with a pixel's height and count in each number.
ghost use Rattle.std.specs.Prelude.{◌≡◌, ℕ, ◌+◌, ◌%◌, min, List, [], ◌∷◌, if◌then◌else◌};
ghost use Rattle.std.specs.Int.{int_max};
ghost use Rattle.planes.specs.Rowwise.{verdict};
ghost use Rattle.planes.specs.Packed.{height_in, count_in, pixels, pixels_sound, packed_fits};

use crate::heights::{Height, LOWEST};
use crate::rowwise::Rowwise;
use crate::shape::Shape;
use crate::store::{Store, fill_first};
use geometry::refusal::Refusal;

// The low bits hold the height above the lowest, the others the count.
const HEIGHT_BITS: u32 = 15;

// The bits of the height.
const HEIGHT_MASK: u32 = 0x7fff;

// A count of 1.
const ONE_COUNT: u32 = 0x8000;

// The highest height above the lowest.
const TOP: u32 = 16385;

// A pixel's height and count in one number.
#[derive(Clone, Copy)]
struct Pixel(u32);

impl Pixel {
    // The pixel of that height with a count of 0.
    fn bare(height: Height) -> Pixel
        ensures height { height_in result.0 ≡ height.value }
        ensures count { count_in result.0 ≡ 0 }
    {
        Pixel(height.above_lowest())
    }

    // The height above the lowest. What is too high for a height is the highest.
    fn above(self) -> u32
        ensures { result ≡ min (self.0 % 32768) 16385 }
    {
        (self.0 & HEIGHT_MASK).min(TOP)
    }

    fn height(self) -> Height
        ensures { result.value ≡ height_in self.0 }
    {
        Height {
            value: self.above() as i32 + LOWEST,
        }
    }

    fn count(self) -> u32
        ensures { result ≡ count_in self.0 }
    {
        self.0 >> HEIGHT_BITS
    }

    // The pixel at least as high as a height, with the count as it is.
    fn raised(self, to: Height) -> Pixel
        ensures height { height_in result.0 ≡ int_max (height_in self.0) to.value }
        ensures count { count_in result.0 ≡ count_in self.0 }
    {
        let above = self.above().max(to.above_lowest());
        Pixel((self.count() << HEIGHT_BITS) | above)
    }

    // One more in the count, with the height as it is: the count has the highest bits, so that it wraps as the number does. This and `less` are
    // two functions, as a plane's calls are.
    fn more(self) -> Pixel
        ensures height { height_in result.0 ≡ height_in self.0 }
        ensures count { count_in result.0 ≡ (count_in self.0 + 1) % 131072 }
    {
        Pixel(self.0.wrapping_add(ONE_COUNT))
    }

    // One less in the count, with the height as it is.
    fn less(self) -> Pixel
        ensures height { height_in result.0 ≡ height_in self.0 }
        ensures count { count_in result.0 ≡ (count_in self.0 + 131071) % 131072 }
    {
        Pixel(self.0.wrapping_sub(ONE_COUNT))
    }
}

// The caller's list, with a number for each place. Its low 15 bits are the height plus 8192, and read as 8193 where they are more than
// that; the other 17 bits are the count.
#[derive(Drop)]
pub struct Pixels<'a> {
    pixels: &'a mut [u32],
}

impl Store for Pixels<'_> {
    ghost kept = { λ s. pixels s.pixels.now };

    ghost sound = { λ s. pixels_sound s.pixels.now };

    ghost names = { λ s. s.pixels.ghost_name ∷ [] };

    fn modulus(&self) -> u32 {
        PackedPlane::MODULUS
    }

    fn height(&self, at: usize) -> Height {
        Pixel(self.pixels[at]).height()
    }

    fn count(&self, at: usize) -> u32 {
        Pixel(self.pixels[at]).count()
    }

    fn fill(&mut self, places: usize, ground: Height) {
        fill_first(self.pixels, places, Pixel::bare(ground).0);
    }

    fn raise(&mut self, at: usize, to: Height) {
        self.pixels[at] = Pixel(self.pixels[at]).raised(to).0;
    }

    fn more(&mut self, at: usize) {
        self.pixels[at] = Pixel(self.pixels[at]).more().0;
    }

    fn less(&mut self, at: usize) {
        self.pixels[at] = Pixel(self.pixels[at]).less().0;
    }
}

// A plane over the caller's list.
pub type PackedPlane<'a> = Rowwise<Pixels<'a>>;

impl<'a> PackedPlane<'a> {
    // Counts wrap at this number.
    pub const MODULUS: u32 = 131072;

    // Refuses a list that does not hold a plane of that width and number of rows, each 1 to 256, with a place for each pixel and no
    // more.
    pub fn check(pixels: &[u32], width: usize, rows: usize) -> Result<(), Refusal>
        ensures { result ≡ verdict (packed_fits width rows pixels.now) }
    {
        Shape::of(width, rows, pixels.len()).ok_or(Refusal::Plane)?;
        Ok(())
    }

    // The plane that the list holds; of size 0 where the check refuses it.
    pub fn new(pixels: &'a mut [u32], width: usize, rows: usize) -> PackedPlane<'a>
        ensures names { result.store.pixels.ghost_name ≡ pixels.entry.ghost_name }
        ensures lists { result.store.pixels.now ≡ pixels.old }
        ensures size { (result.shape.width ≡ (if packed_fits width rows pixels.old then width else 0)) × (result.shape.rows ≡ (if packed_fits width rows pixels.old then rows else 0)) }
    {
        let shape = Shape::of(width, rows, pixels.len()).unwrap_or(Shape::EMPTY);
        Rowwise {
            store: Pixels { pixels },
            shape,
        }
    }
}
