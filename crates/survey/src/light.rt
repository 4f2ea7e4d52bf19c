// The light of a cast.
ghost use Rattle.std.specs.Prelude.{◌≡◌, true, false, MatchResult};
ghost use Rattle.geometry.specs.Light.{run_of};
ghost use Rattle.geometry.specs.Limits.{in_run_limits, LawfulRun};
ghost use Rattle.geometry.specs.Machine.{vector_of};
ghost use Rattle.geometry.specs.declared.refusal.Refusal.TheVariants as refusal;
ghost use Rattle.volumes.specs.Extent.{extent as extent_along};

use geometry::light::Run;
use geometry::refusal::Refusal;
use geometry::vector::Vector;
use volumes::reach::extent;

// The way the light travels, which is within its limits, and how far a triangle is swept along it to make its shadow volume.
#[derive(Clone, Copy)]
pub(crate) struct Light {
    pub(crate) run: Run,
    pub(crate) extent: Vector,
    ghost falls: { LawfulRun (run_of run) },
    ghost swept: { vector_of extent ≡ extent_along (run_of run) },
}

// The light of a run, or a refusal where that is outside its limits.
impl TryFrom<Run> for Light {
    type Error = Refusal;

    ghost try_from_gives = { λ run result. MatchResult result (λ light. (light.run ≡ run) × (in_run_limits (run_of run) ≡ true)) (λ why. (why ≡ refusal.Run) × (in_run_limits (run_of run) ≡ false)) };

    fn try_from(run: Run) -> Result<Light, Refusal> {
        let extent = extent(run)?;
        Ok(Light { run, extent })
    }
}
