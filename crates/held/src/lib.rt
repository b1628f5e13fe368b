// A call and a packet in octets that a caller lends: every string of the right length is one struct, and every struct one string.
#![tactic(auto)]

pub mod call;
pub mod number;
pub mod packet;
