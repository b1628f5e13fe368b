// Text records for a receiver: a record to an operation on book and call, its answer to a line, and lines out of pieces of input.
#![tactic(auto)]

mod output;
pub mod reader;
mod respond;
mod step;
