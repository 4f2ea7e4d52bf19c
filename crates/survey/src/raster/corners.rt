// The corners of faces, seen from above.
ghost use Rattle.std.specs.Prelude.{◌≡◌, ◌^◌, ◌≤◌, unsigned_abs};
ghost use Rattle.geometry.specs.Machine.{vector_of};

use geometry::vector::Vector;

// A place of the plan, near enough that no function of a side between two of them overflows; a sample may lie anywhere, and is in steps.
#[derive(Clone, Copy)]
pub struct Corner {
    pub x: i64,
    pub y: i64,
    ghost x_near: { unsigned_abs x ≤ 2 ^ 25 },
    ghost y_near: { unsigned_abs y ≤ 2 ^ 25 },
}

impl Corner {
    // Where the point is in the plan.
    pub(crate) fn under(point: Vector) -> Corner
        requires near_x { unsigned_abs (vector_of point).x ≤ 2 ^ 25 }
        requires near_y { unsigned_abs (vector_of point).y ≤ 2 ^ 25 }
        ensures x { result.x ≡ (vector_of point).x }
        ensures y { result.y ≡ (vector_of point).y }
    {
        Corner {
            x: point[0],
            y: point[1],
        }
    }
}
