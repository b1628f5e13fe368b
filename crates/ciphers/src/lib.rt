// The three ciphers: which keys they allow, and the one keystream, with DES by either of its engines.
#![tactic(auto)]

mod feedback;
pub mod joined;
pub mod key;
pub mod plain;
