// The library that a radio links, for C and Rust: a book, a call and a packet are octets that the caller keeps, all zeros where there is none. Each function
// answers a number of the table, and is thin over the crates below. nxdn_c exports them, and include/nxdn.h
// says the same to C.
#![tactic(auto)]

pub mod book;
pub mod call;
pub mod lent;
pub mod packet;
pub mod reports;
pub mod screen;

// Kept: a number, as the C interface answers it.
pub const WRONG_LENGTH: u8 = 2;
