// Text in lent octets: its parts between separators, the fields of a line, decimal numbers and hex, read and written; and what is carried of a line.
#![tactic(auto)]

pub mod carry;
pub mod decimal;
pub mod field;
pub mod hex;
pub mod part;
