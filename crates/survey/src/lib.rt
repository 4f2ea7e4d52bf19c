// The survey: begin, lay, close, cast, look and draw on any plane with any solid, and the law of what the marks mean.
#![tactic(auto)]

pub mod casting;
pub mod laying;
mod light;
pub mod mark;
mod pen;
pub mod picture;
mod raster;
pub mod reading;
pub mod state;
pub mod theorems;
mod triangles;
