// Ids of 32 bytes that rise strictly, at the front of a buffer, as the needed list does: their check, the place of an id among them, and ids moved. For our own crates.
#![tactic(auto)]

pub mod moving;
pub mod order;
pub mod place;
