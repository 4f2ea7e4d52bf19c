// The limits of coordinates and runs.
ghost use Rattle.std.specs.Prelude.{◌≡◌};
ghost use Rattle.geometry.specs.Limits.{between, in_limits_under, in_limits, in_receiver_limits, in_run_limits};
ghost use Rattle.geometry.specs.Units.{point_of};
ghost use Rattle.geometry.specs.Light.{run_of};

use crate::light::Run;
use crate::units::Point;

// Whether a number is from `low` to `high`.
pub fn is_between(low: i64, high: i64, number: i64) -> bool
    ensures { result ≡ between low high number }
{
    low <= number && number <= high
}

impl Point {
    // Whether each coordinate is from -8192 to 8192, but for z, which may be as high as `top`.
    fn is_under(self, top: i64) -> bool
        ensures { result ≡ in_limits_under top (point_of self) }
    {
        is_between(-8192, 8192, self.x.0)
            && is_between(-8192, 8192, self.y.0)
            && is_between(-8192, top, self.z.0)
    }

    // Whether each coordinate is within the limits of a solid's corner.
    pub fn is_corner(self) -> bool
        ensures { result ≡ in_limits (point_of self) }
    {
        self.is_under(8192)
    }

    // Whether each coordinate is within the limits of a receiver, which may lie one step higher than a corner.
    pub fn is_receiver(self) -> bool
        ensures { result ≡ in_receiver_limits (point_of self) }
    {
        self.is_under(8193)
    }
}

impl Run {
    // Whether the run is within its limits: the light falls.
    pub fn is_lawful(self) -> bool
        ensures { result ≡ in_run_limits (run_of self) }
    {
        is_between(-1024, 1024, self.dx)
            && is_between(-1024, 1024, self.dy)
            && is_between(-1024, -1, self.dz)
    }
}
