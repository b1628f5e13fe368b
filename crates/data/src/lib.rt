// Data packets: a packet by value, how it begins and ends, and its messages.
#![tactic(auto)]

pub mod kind;
pub mod message;
pub mod opening;
pub mod packet;
