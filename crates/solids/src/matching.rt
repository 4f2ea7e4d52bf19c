// Tables of corners, triangles and partners: their tests, and the partner list that corners and triangles have.
ghost use Rattle.std.specs.Prelude.{◌≡◌, length, slice_index, MatchResult};
ghost use Rattle.solids.specs.Solids.{corners_of};
ghost use Rattle.solids.specs.Tables.{InsideAt, are_numbers, NumberedAt, Searched, Counted, Numbered, Partnered, Unmatched, Unloaded, Matched};

use crate::misfit::{Misfit, Site};
use crate::sides::{Chains, MOST, MOST_PLACES};
use crate::solid::Triangle;
use geometry::refusal::Refusal;
use geometry::units::Point;

impl Triangle {
    // Whether the triangle has three different corners among the first so many.
    fn is_numbered(self, corners: usize) -> bool
        ensures { result ≡ are_numbers corners (corners_of self) }
    {
        (self.a as usize) < corners
            && (self.b as usize) < corners
            && (self.c as usize) < corners
            && self.a != self.b
            && self.b != self.c
            && self.c != self.a
    }
}

// Corners and triangles that are to make a solid.
#[derive(Drop)]
pub(crate) struct Mesh<'a> {
    pub(crate) corners: &'a [Point],
    pub(crate) triangles: &'a [Triangle],
}

impl Mesh<'_> {
    // The first corner outside the limits of coordinates.
    fn first_outside(&self) -> Option<usize>
        ensures { Searched (InsideAt self.now.corners.now) (length self.now.corners.now) result }
    {
        self.corners.iter().position(|corner| !corner.is_corner())
    }

    // The first triangle with a corner number that is out of range, or twice there.
    fn first_misnumbered(&self) -> Option<usize>
        ensures { Searched (NumberedAt (length self.now.corners.now) self.now.triangles.now) (length self.now.triangles.now) result }
    {
        let corners = self.corners.len();
        self.triangles
            .iter()
            .position(|triangle| !triangle.is_numbered(corners))
    }

    // Whether the tables, with a partner list of a length, are within the limits of their lengths.
    fn test_counts(&self, partners: usize) -> Result<(), Misfit>
        ensures { MatchResult result (λ _. Counted self.now.corners.now self.now.triangles.now partners) (λ e. Unmatched self.now.corners.now self.now.triangles.now partners e) }
    {
        if self.corners.len() > MOST {
            return Err(Misfit::new(Refusal::Count, Site::Corner(MOST)));
        }
        if self.triangles.len() > MOST {
            return Err(Misfit::new(Refusal::Count, Site::Triangle(MOST)));
        }
        if partners != 3 * self.triangles.len() {
            return Err(Misfit::new(Refusal::Count, Site::Partners(partners)));
        }
        Ok(())
    }

    // Whether the tables pass each test but that of the pairing rule.
    fn test_tables(&self, partners: usize) -> Result<(), Misfit>
        ensures { MatchResult result (λ _. Numbered self.now.corners.now self.now.triangles.now partners) (λ e. Unmatched self.now.corners.now self.now.triangles.now partners e) }
    {
        self.test_counts(partners)?;
        if self.triangles.is_empty() {
            return Err(Misfit::new(Refusal::Empty, Site::Nowhere));
        }
        if let Some(number) = self.first_outside() {
            return Err(Misfit::new(Refusal::Coordinate, Site::Corner(number)));
        }
        if let Some(number) = self.first_misnumbered() {
            return Err(Misfit::new(Refusal::Corner, Site::Triangle(number)));
        }
        Ok(())
    }

    // Writes the partner of each side, as far as the pairing rule holds. Its two arrays (64 KB), and the one of `test_partners` (48 KB), are on
    // the stack: neither function is inlined, or a caller would have them under all else that it does.
    #[inline(never)]
    fn pair_sides(&self, partners: &mut [u32]) -> Result<(), Misfit>
        ensures { MatchResult result (λ _. Partnered self.now.corners.now self.now.triangles.now partners.new) (λ e. Unmatched self.now.corners.now self.now.triangles.now (length partners.old) e) }
    {
        self.test_tables(partners.len())?;
        let mut heads = [0; MOST];
        let mut links = [0; MOST_PLACES];
        let chains = Chains::link(self.triangles, &mut heads, &mut links);
        for (place, partner) in partners.iter_mut().enumerate() {
            let misfit = Misfit::new(Refusal::Side, Site::Place(place));
            *partner = chains.partner_of(place).ok_or(misfit)? as u32;
        }
        Ok(())
    }

    // Whether the tables make a solid with a partner list.
    #[inline(never)]
    pub(crate) fn test_partners(&self, partners: &[u32]) -> Result<(), Misfit>
        ensures { MatchResult result (λ _. Partnered self.now.corners.now self.now.triangles.now partners.now) (λ e. Unloaded self.now.corners.now self.now.triangles.now partners.now e) }
    {
        self.test_counts(partners.len())?;
        let mut right = [0; MOST_PLACES];
        let right = &mut right[..partners.len()];
        match_sides(self.corners, self.triangles, right)?;
        if let Some(place) = first_different(partners, right) {
            return Err(Misfit::new(Refusal::Side, Site::Place(place)));
        }
        Ok(())
    }
}

// The first place at which two lists of one length differ.
fn first_different(left: &[u32], right: &[u32]) -> Option<usize>
    requires { length left.now ≡ length right.now }
    ensures { Searched (λ q. slice_index left.now q ≡ slice_index right.now q) (length left.now) result }
{
    left.iter().zip(right.iter()).position(|(l, r)| l != r)
}

// Fills the partner list of corners and triangles: at each place stands the one place whose side is the reverse. Refusals, in the
// order of the tests: Count, Empty, Coordinate, Corner, Side, each with the first site where it is due; the list is then all 0.
// (The word for this is `match`, which Rust reserves.) A side is compared only with the sides of its key, of which there are a handful
// in a usual solid. By a rule of the project this call and `load` take the tables that a caller lends, one by one.
pub fn match_sides(
    corners: &[Point],
    triangles: &[Triangle],
    partners: &mut [u32],
) -> Result<(), Misfit>
    ensures { Matched corners.now triangles.now partners.old partners.new result }
{
    let outcome = Mesh { corners, triangles }.pair_sides(partners);
    if outcome.is_err() {
        partners.fill(0);
    }
    outcome
}
