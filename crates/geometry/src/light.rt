// The light: the way it travels, and the way to the sun.
ghost use Rattle.std.specs.Prelude.{◌≡◌};
ghost use Rattle.geometry.specs.Light.{turned};

use crate::refusal::Refusal;

// The way the light travels. Within its limits dx and dy are from -1024 to 1024 and dz is from -1024 to -1: the light falls.
#[derive(Clone, Copy, PartialEq, Eq, Debug)]
pub struct Run {
    pub dx: i64,
    pub dy: i64,
    pub dz: i64,
}

// The way to the sun. Only `turn` makes a run of it: a rule of the project keeps the two apart, though both hold the same numbers.
#[derive(Clone, Copy, PartialEq, Eq, Debug)]
pub struct Bearing {
    pub dx: i64,
    pub dy: i64,
    pub dz: i64,
}

impl Bearing {
    // The run of the light that comes from there, or a refusal where that is outside its limits.
    pub fn turn(self) -> Result<Run, Refusal>
        ensures { result ≡ turned self }
    {
        let run = Run {
            dx: self.dx.wrapping_neg(),
            dy: self.dy.wrapping_neg(),
            dz: self.dz.wrapping_neg(),
        };
        if run.is_lawful() {
            Ok(run)
        } else {
            Err(Refusal::Run)
        }
    }
}
