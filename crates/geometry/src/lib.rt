// Geometry below every plane and solid: units with types of their own, the light, vectors, and the test whether a triangle
// keeps the light from a point (strike). The definitions are in specs/, the proofs in proofs/.
#![tactic(auto)]

pub mod export;
pub mod facet;
pub mod light;
pub mod limits;
pub mod refusal;
pub mod sign;
pub mod strike;
pub mod theorems;
pub mod units;
pub mod vector;
