// Vectors of three machine numbers, by value. Each operation wraps, so none has a condition; where the exact result fits 64 bits it is
// the result, and proofs/Exact.antt shows that from bounds on the operands.
ghost use Rattle.std.specs.Prelude.{◌≡◌, ◌+ℤ◌, ◌-ℤ◌, ◌*ℤ◌};
ghost use Rattle.std.specs.Int.{int_wrap, w64};
ghost use Rattle.geometry.specs.Vectors as exact;
ghost use Rattle.geometry.specs.Machine.{vector_of, wrapped3};
ghost use Rattle.geometry.specs.Units.{point_of};
ghost use Rattle.geometry.specs.Light.{run_of};

use crate::light::Run;
use crate::units::Point;

// A point or a direction, by its parts x, y and z. A rule of the project makes it an array, passed by value to plain functions.
pub type Vector = [i64; 3];

impl From<Point> for Vector {
    ghost from_gives = { λ point v. vector_of v ≡ point_of point };

    fn from(point: Point) -> Vector {
        [point.x.0, point.y.0, point.z.0]
    }
}

impl From<Run> for Vector {
    ghost from_gives = { λ run v. vector_of v ≡ run_of run };

    fn from(run: Run) -> Vector {
        [run.dx, run.dy, run.dz]
    }
}

// The vector from v to u.
pub fn difference(u: Vector, v: Vector) -> Vector
    ensures { vector_of result ≡ wrapped3 (exact.minus (vector_of u) (vector_of v)) }
{
    [
        u[0].wrapping_sub(v[0]),
        u[1].wrapping_sub(v[1]),
        u[2].wrapping_sub(v[2]),
    ]
}

// a·b − c·d: one part of a vector product.
fn minor(a: i64, b: i64, c: i64, d: i64) -> i64
    ensures { result ≡ int_wrap w64 (a *ℤ b -ℤ c *ℤ d) }
{
    a.wrapping_mul(b).wrapping_sub(c.wrapping_mul(d))
}

// The vector product u × v.
pub fn cross(u: Vector, v: Vector) -> Vector
    ensures { vector_of result ≡ wrapped3 (exact.cross (vector_of u) (vector_of v)) }
{
    [
        minor(u[1], v[2], u[2], v[1]),
        minor(u[2], v[0], u[0], v[2]),
        minor(u[0], v[1], u[1], v[0]),
    ]
}

// a·b, as 64 bits keep it: by this name the proof of `dot` speaks of each product.
fn times(a: i64, b: i64) -> i64
    ensures { result ≡ int_wrap w64 (a *ℤ b) }
{
    a.wrapping_mul(b)
}

// a + b, as 64 bits keep it: by this name that proof speaks of each sum.
fn plus(a: i64, b: i64) -> i64
    ensures { result ≡ int_wrap w64 (a +ℤ b) }
{
    a.wrapping_add(b)
}

// The scalar product u · v.
pub fn dot(u: Vector, v: Vector) -> i64
    ensures { result ≡ int_wrap w64 (exact.dot (vector_of u) (vector_of v)) }
{
    let x = times(u[0], v[0]);
    let y = times(u[1], v[1]);
    let z = times(u[2], v[2]);
    plus(plus(x, y), z)
}
