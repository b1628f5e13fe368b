// The library that a radio links from C and Rust: each export calls the function of nxdn that has its name, and states its clauses again. include/nxdn.h
// declares them to C.
#![tactic(auto)]

pub mod book;
pub mod call;
pub mod packet;
pub mod reports;
pub mod screen;
