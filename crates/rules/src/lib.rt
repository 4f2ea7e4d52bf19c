// The rules of jobs: which texts are jobs that can be done, what such a job comes to, and where and why another text is refused.
#![tactic(auto)]

pub mod room;
pub mod setup;
pub mod theorems;
