// Cases of `turn`, and of how far a run reaches.
use crate::words::{Numbers, Spaced, told};
use geometry::light::{Bearing, Run};
use geometry::refusal::Refusal;
use std::alloc::Global;
use volumes::reach;

// turn dx dy dz
pub(crate) fn turn(heap: Global, numbers: &mut Numbers) -> anyhow::Result<String> {
    let bearing = Bearing {
        dx: numbers.number()?,
        dy: numbers.number()?,
        dz: numbers.number()?,
    };
    told(heap, bearing.turn().map(|run| Spaced(run.into())))
}

// How many runs it is, and the extent.
fn reached(run: Run) -> Result<Spaced<4>, Refusal> {
    let [x, y, z] = reach::extent(run)?;
    Ok(Spaced([reach::reach(run)?, x, y, z]))
}

// reach dx dy dz: how many runs, and the extent
pub(crate) fn reach(heap: Global, numbers: &mut Numbers) -> anyhow::Result<String> {
    told(heap, reached(numbers.run()?))
}
