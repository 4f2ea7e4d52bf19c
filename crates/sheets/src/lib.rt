// A solid made for cases of sizes: so many corners, all in one point, and pairs of triangles back to back over the first three of them.
#![tactic(auto)]

pub mod sheets;
