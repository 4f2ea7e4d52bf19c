// Which way a face looks, seen from above.
ghost use Rattle.std.specs.Prelude.{◌≡◌};
ghost use Rattle.survey.specs.Tilts.{facing_of};

use std::cmp::Ordering;

// Upwards, to whoever looks at the plan, or downwards.
#[derive(Clone, Copy)]
pub enum Facing {
    Up,
    Down,
}

impl Facing {
    // The way that a normal with this z points; none if it is level.
    pub(crate) fn of(z: i64) -> Option<Facing>
        ensures { result ≡ facing_of z }
    {
        match z.cmp(&0) {
            Ordering::Greater => Some(Facing::Up),
            Ordering::Less => Some(Facing::Down),
            Ordering::Equal => None,
        }
    }
}
