// Cases of `strike`.
use crate::words::{Numbers, told};
use std::alloc::Global;

// strike, then three numbers each of the triangle's corners, the receiver and the run
pub(crate) fn strike(heap: Global, numbers: &mut Numbers) -> anyhow::Result<String> {
    let facet = numbers.facet()?;
    let receiver = numbers.point()?;
    let run = numbers.run()?;
    let answer = facet.strike(run, receiver);
    told(heap, answer.map(|struck| if struck { "yes" } else { "no" }))
}
