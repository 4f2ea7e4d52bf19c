// How far a triangle is swept along the light to make its shadow volume: past all that can be shaded.
ghost use Rattle.std.specs.Prelude.{◌≡◌};
ghost use Rattle.volumes.specs.Machine.{reach_of, extent_of};

use geometry::light::Run;
use geometry::refusal::Refusal;
use geometry::vector::Vector;

// How many times the run the sweep is long: floor(16384 / -dz) + 1.
pub fn reach(run: Run) -> Result<i64, Refusal>
    ensures { result ≡ reach_of run }
{
    if run.is_lawful() {
        Ok((16384 / run.dz.unsigned_abs() + 1) as i64)
    } else {
        Err(Refusal::Run)
    }
}

// The sweep: the run times its reach.
pub fn extent(run: Run) -> Result<Vector, Refusal>
    ensures { result ≡ extent_of run }
{
    let times = reach(run)?;
    Ok([times * run.dx, times * run.dy, times * run.dz])
}
