// The heights that a pixel can have: -8192 to 8193, one step above the highest corner of a solid.
ghost use Rattle.std.specs.Prelude.{◌≡◌, true, false, pos, neg_ℤ, ◌+ℤ◌, ◌≤ℤ◌, MatchOption};
ghost use Rattle.planes.specs.Planes.{is_height};
ghost use Rattle.planes.specs.Linear.{clamped};

use geometry::limits::is_between;
use geometry::units::Step;

pub(crate) const LOWEST: i32 = -8192;

const HIGHEST: i32 = 8193;

// A height, in steps.
#[derive(Clone, Copy, PartialEq, Eq, PartialOrd, Ord)]
pub struct Height {
    pub(crate) value: i32,
    ghost low: { neg_ℤ (pos 8192) ≤ℤ value },
    ghost high: { value ≤ℤ pos 8193 },
}

impl Height {
    // A length as a height; none where it cannot be one. An Option and no TryFrom: a plane does nothing where there is no height, and needs no
    // reason. An `if`, since a closure for `then_some` has to ask for the range again.
    pub(crate) fn of(length: Step) -> Option<Height>
        ensures { MatchOption result (is_height length.0 ≡ false) (λ h. (is_height length.0 ≡ true) × (h.value ≡ length.0)) }
    {
        if is_between(LOWEST as i64, HIGHEST as i64, length.0) {
            Some(Height {
                value: length.0 as i32,
            })
        } else {
            None
        }
    }

    // The height nearest to a number.
    pub(crate) fn nearest(number: i32) -> Height
        ensures { result.value ≡ clamped number }
    {
        Height {
            value: number.clamp(LOWEST, HIGHEST),
        }
    }

    // How far it is above the lowest.
    pub(crate) fn above_lowest(self) -> u32
        ensures { pos result ≡ self.value +ℤ pos 8192 }
    {
        (self.value - LOWEST) as u32
    }
}

impl From<Height> for Step {
    ghost from_gives = { λ height step. step.0 ≡ height.value };

    fn from(height: Height) -> Step {
        Step(height.value as i64)
    }
}
