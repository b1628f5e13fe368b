// A call by value: how it begins and ends, its vectors, and the words that it counts.
#![tactic(auto)]

pub mod call;
pub mod counts;
pub mod opening;
pub mod vector;
