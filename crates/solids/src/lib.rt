// Solids: what a solid is (trait Solid with its law), and the kinds of it.
#![tactic(auto)]

pub mod matching;
pub mod misfit;
pub mod pair;
mod sides;
pub mod solid;
pub mod table;
pub mod theorems;
