// The message layer, second crate: the reader. A cursor steps through a message; each read takes it and gives it back moved, with what was read.
#![tactic(auto)]

pub mod bound;
pub mod check;
pub mod listed;
pub mod payload;
pub mod range;
pub mod varint;
