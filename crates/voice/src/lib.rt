// Voice slots of a call, sent and received, and the frame that is turned in each.
#![tactic(auto)]

pub mod frame;
pub mod slot;
