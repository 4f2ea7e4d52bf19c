// The planes of faces as functions of column, row and height.
ghost use Rattle.std.specs.Prelude.{◌≡◌, ◌^◌, ◌≤◌, pos, ◌<ℤ◌, unsigned_abs};

use crate::raster::facing::Facing;
use geometry::units::{Column, Row, Step};
use geometry::vector::{Vector, difference, dot};

// base + column·i + row·j + height·h in column i, row j and at the height h: positive above a plane, negative under it.
#[derive(Clone, Copy)]
pub struct Tilt {
    pub base: i64,
    pub column: i64,
    pub row: i64,
    pub height: i64,
    ghost base_near: { unsigned_abs base ≤ 2 ^ 58 },
    ghost column_near: { unsigned_abs column ≤ 2 ^ 44 },
    ghost row_near: { unsigned_abs row ≤ 2 ^ 44 },
    ghost height_near: { unsigned_abs height ≤ 2 ^ 40 },
    ghost rises: { pos 0 <ℤ height },
}

impl Tilt {
    ghost use Rattle.std.specs.Prelude.{◌≡◌, ℕ, ◌^◌, ◌≤◌, ℤ, pos, neg_ℤ, ◌≤ℤ◌, int_lt, unsigned_abs};
    ghost use Rattle.geometry.specs.Machine.{vector_of};
    ghost use Rattle.geometry.specs.Vectors.{minus, dot as scalar};
    ghost use Rattle.volumes.specs.Faces.{receiver};
    ghost use Rattle.survey.specs.Drawing.{sample_of};
    ghost use Rattle.survey.specs.Raster.{Inclined};
    ghost use Rattle.survey.specs.Tilts.{turned_by};
    ghost use Rattle.survey.specs.RasterTilts.{ground_on, value_on, least_on};

    // The plane through u whose normal, which points upwards, is n.
    fn new(n: Vector, u: Vector) -> Tilt
        requires { Inclined (vector_of n).z (vector_of n) (vector_of u) }
        ensures height { result.height ≡ (vector_of n).z }
        ensures is { (i j : ℕ) (h : ℤ) → value_on result i j h ≡ scalar (vector_of n) (minus (receiver (sample_of i j) h) (vector_of u)) }
    {
        Tilt {
            base: dot(n, difference([8, 8, 0], u)),
            column: 16 * n[0],
            row: 16 * n[1],
            height: n[2],
        }
    }

    // The plane through u whose normal is n, which points the way that the face looks. A face has both, and hands them on for this one call.
    pub(crate) fn facing(n: Vector, u: Vector, facing: Facing) -> Tilt
        requires { Inclined (turned_by facing (vector_of n).z) (vector_of n) (vector_of u) }
        ensures height { result.height ≡ turned_by facing (vector_of n).z }
        ensures is { (i j : ℕ) (h : ℤ) → value_on result i j h ≡ turned_by facing (scalar (vector_of n) (minus (receiver (sample_of i j) h) (vector_of u))) }
    {
        match facing {
            Facing::Up => Tilt::new(n, u),
            Facing::Down => Tilt::new(difference([0, 0, 0], n), u),
        }
    }

    // The function at the height 0.
    fn ground(&self, column: Column, row: Row) -> i64
        ensures is { result ≡ ground_on self.now column.0 row.0 }
        ensures near { unsigned_abs result ≤ 2 ^ 62 }
    {
        self.base + self.row * row.0 as i64 + self.column * column.0 as i64
    }

    // Whether the plane is below a height of a pixel.
    pub(crate) fn is_below(&self, column: Column, row: Row, height: Step) -> bool
        requires low { neg_ℤ (pos 8192) ≤ℤ height.0 }
        requires high { height.0 ≤ℤ pos 8193 }
        ensures { result ≡ int_lt (pos 0) (value_on self.now column.0 row.0 height.0) }
    {
        self.ground(column, row) + self.height * height.0 > 0
    }

    // The least whole height of a pixel that the plane is below.
    pub(crate) fn least_over(&self, column: Column, row: Row) -> Step
        ensures { result.0 ≡ least_on self.now column.0 row.0 }
    {
        let ground = self.ground(column, row);
        let rise = self.height.unsigned_abs();
        if ground > 0 {
            let steps = ((ground.unsigned_abs() - 1) / rise) as i64;
            Step(-steps)
        } else {
            let steps = (ground.unsigned_abs() / rise) as i64;
            Step(steps + 1)
        }
    }
}
