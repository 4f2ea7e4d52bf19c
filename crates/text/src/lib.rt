// The text of jobs: lines of a head and fields, what each line says, and which lines are refused for their text.
#![tactic(auto)]

pub mod classify;
pub mod entry;
pub mod fault;
pub mod head;
mod lines;
pub mod machine;
pub mod number;
pub mod reader;
pub mod records;
pub mod theorems;
pub mod values;
