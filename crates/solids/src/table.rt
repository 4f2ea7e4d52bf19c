// A solid over tables that the caller lends.
ghost use Rattle.std.specs.Prelude.{◌≡◌, ◌≤◌, length};
ghost use Rattle.solids.specs.TableLaw.{AllInside, AllNumbered, AllWithin, AllReverse, AllBack, tabled_lawful};
ghost use Rattle.solids.specs.Tables.{tabled, empty_solid, sides, Loaded};

use crate::matching::Mesh;
use crate::misfit::Misfit;
use crate::solid::{Solid, Triangle};
use geometry::units::Point;

// A solid of three tables, as a rule of the project has the caller lend them: its corners, its triangles, and at the place of each side the
// place of its partner. It keeps what the law of solids asks of them.
#[derive(Drop)]
pub struct TableSolid<'a> {
    corners: &'a [Point],
    triangles: &'a [Triangle],
    partners: &'a [u32],
    ghost few: { length corners.now ≤ 4096 },
    ghost small: { length triangles.now ≤ 4096 },
    ghost long: { length partners.now ≡ sides triangles.now },
    ghost inside: { AllInside corners.now },
    ghost numbered: { AllNumbered (length corners.now) triangles.now },
    ghost within: { AllWithin triangles.now partners.now },
    ghost reverse: { AllReverse triangles.now partners.now },
    ghost back: { AllBack triangles.now partners.now },
}

impl<'a> TableSolid<'a> {
    // The solid of no corner and no triangle.
    pub fn empty() -> TableSolid<'a>
        ensures { tabled result.corners.now result.triangles.now result.partners.now ≡ empty_solid }
    {
        TableSolid {
            corners: &[],
            triangles: &[],
            partners: &[],
        }
    }

    // Makes the solid that of three tables. Refusals, in the order of the tests: those of `match_sides` on the corners and triangles,
    // then Side at the first place whose partner is not the one that `match_sides` writes; the solid is then empty.
    pub fn load(
        &mut self,
        corners: &'a [Point],
        triangles: &'a [Triangle],
        partners: &'a [u32],
    ) -> Result<(), Misfit>
        ensures { Loaded corners.now triangles.now partners.now (tabled self.new.corners.now self.new.triangles.now self.new.partners.now) result }
    {
        *self = TableSolid::empty();
        Mesh { corners, triangles }.test_partners(partners)?;
        *self = TableSolid {
            corners,
            triangles,
            partners,
        };
        Ok(())
    }
}

impl Solid for TableSolid<'_> {
    ghost model = { λ s. tabled s.corners.now s.triangles.now s.partners.now };

    ghost lawful = { λ s. tabled_lawful s.corners.now s.triangles.now s.partners.now s.few s.small s.inside s.numbered s.within s.reverse s.back };

    fn corners(&self) -> usize {
        self.corners.len()
    }

    fn triangles(&self) -> usize {
        self.triangles.len()
    }

    fn corner(&self, number: usize) -> Option<Point> {
        self.corners.get(number).copied()
    }

    fn triangle(&self, number: usize) -> Option<Triangle> {
        self.triangles.get(number).copied()
    }

    fn partner(&self, place: usize) -> Option<usize> {
        self.partners.get(place).map(|partner| *partner as usize)
    }
}
