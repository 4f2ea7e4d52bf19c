// The units of the plan, each with a type of its own, so that a length is never taken for a pixel's number. Only the sample rule
// passes from pixels to lengths.
ghost use Rattle.std.specs.Prelude.{◌≡◌};
ghost use Rattle.geometry.specs.Vectors.{vector};
ghost use Rattle.geometry.specs.Units.{point_of, sample_at};

// A length: a sixteenth of a pixel's side. Heights are in steps too.
#[derive(Clone, Copy, PartialEq, Eq, Debug)]
pub struct Step(pub i64);

// A pixel's column, from 0 at the left.
#[derive(Clone, Copy, PartialEq, Eq, Debug)]
pub struct Column(pub u16);

// A pixel's row, from 0 at the top. A rule of the project keeps it apart from a column, though both hold the same number.
#[derive(Clone, Copy, PartialEq, Eq, Debug)]
pub struct Row(pub u16);

// A point: x grows to the right, y downwards in the plan, z towards the viewer.
#[derive(Clone, Copy, PartialEq, Eq, Debug)]
pub struct Point {
    pub x: Step,
    pub y: Step,
    pub z: Step,
}

impl Point {
    // The point of three coordinates in steps.
    pub fn new(x: i64, y: i64, z: i64) -> Point
        ensures { point_of result ≡ vector x y z }
    {
        Point {
            x: Step(x),
            y: Step(y),
            z: Step(z),
        }
    }
}

// The middle of the pixel of a number, in steps.
fn middle(number: u16) -> Step
    ensures { result.0 ≡ sample_at number }
{
    Step(16 * number as i64 + 8)
}

impl Column {
    // The x of the samples in this column: the middle of its pixels.
    pub fn sample(self) -> Step
        ensures { result.0 ≡ sample_at self.0 }
    {
        let Column(i) = self;
        middle(i)
    }
}

impl Row {
    // The y of the samples in this row.
    pub fn sample(self) -> Step
        ensures { result.0 ≡ sample_at self.0 }
    {
        let Row(j) = self;
        middle(j)
    }
}
