// Stored answers of a WebGPU implementation, judged by the checks.
#![tactic(auto)]

pub mod judge;
pub mod report;
pub mod tally;
pub mod verdict;
