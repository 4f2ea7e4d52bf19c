// Shadow volumes: the faces of one, what they cover and count, and THE THEOREM, that their count at a receiver is the number of strikes.
// The definitions are in specs/, the proofs in proofs/.
#![tactic(auto)]

pub mod count;
pub mod cover;
pub mod face;
pub mod height;
pub mod reach;
pub mod theorems;
