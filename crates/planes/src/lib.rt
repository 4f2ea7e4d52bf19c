// Planes: what a plane of heights and counts is (trait Plane with its meaning), and the kinds of it: one whose pixels a store keeps row
// by row, in lists that the caller lends (a store of heights and of counts, and one that packs each pixel into one number), and a layer
// over any plane that narrows its window.
#![tactic(auto)]

pub mod frame;
mod heights;
pub mod linear;
pub mod packed;
pub mod plane;
mod rowwise;
mod shape;
mod store;
