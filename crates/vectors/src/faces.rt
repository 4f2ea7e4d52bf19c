// Cases of faces at a sample: how they cover it, and what they raise it to.
use crate::words::Numbers;
use anyhow::anyhow;
use geometry::units::Step;
use std::alloc::Global;
use volumes::cover::{Cover, Sample};
use volumes::face::Face;
use volumes::reach;

fn sample(numbers: &mut Numbers) -> anyhow::Result<Sample> {
    Ok(Sample {
        x: Step(numbers.number()?),
        y: Step(numbers.number()?),
    })
}

// The face's normal, how it covers the sample, and what it raises it to. The words are the cases' own, so that no Display of `Cover` has them.
fn shown(heap: Global, face: &Face, sample: Sample) -> anyhow::Result<String> {
    let [x, y, z] = face.normal;
    let way = match face.covers(sample) {
        Cover::Up => "up",
        Cover::Down => "down",
        Cover::Beside => "beside",
    };
    let mut text = format!(in heap; "{x} {y} {z} {way}")?;
    if let Some(Step(top)) = face.raised_to(sample) {
        write!(text, " {top}")?;
    }
    Ok(text)
}

// floor, then the three corners of a triangle and a sample
pub(crate) fn floor(heap: Global, numbers: &mut Numbers) -> anyhow::Result<String> {
    let face = Face::near_cap(numbers.facet()?);
    shown(heap, &face, sample(numbers)?)
}

// wall, then the two ends of a side, a run and a sample
pub(crate) fn wall(heap: Global, numbers: &mut Numbers) -> anyhow::Result<String> {
    let u = numbers.point()?;
    let v = numbers.point()?;
    let run = numbers.run()?;
    let at = sample(numbers)?;
    let extent = reach::extent(run).map_err(|_| anyhow!("a run outside its limits"))?;
    shown(heap, &Face::wall(u, v, extent), at)
}
