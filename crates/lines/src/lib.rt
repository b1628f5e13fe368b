// A line of text as a record, read by its fields.
#![tactic(auto)]

mod pair;
pub mod record;
