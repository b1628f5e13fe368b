// The sizes that the paper and the standard give: of each cipher, and of a voice frame.
#![tactic(auto)]

pub mod cipher;
pub mod frame;
