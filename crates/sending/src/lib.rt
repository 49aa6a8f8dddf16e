// The messages that either end sends, within a byte limit or without one. A message is measured first, so that a call that is refused has changed no byte. For our
// own crates: message, table, cut and limit are checked before.
#![tactic(auto)]

pub mod put;
pub mod send;
pub mod stop;

// The opener's first query; the responder's answer and the opener's next query, which are made of the other's message.
#[derive(Clone, Copy)]
pub enum Kind {
    FirstQuery,
    Answer,
    NextQuery,
}
