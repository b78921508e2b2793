//! The sender of a path: clients' blocks go into frames by the calendar, and the path's messages between frames, a block a call
//! (ITU-T G.8312, Annex A and clause 9.3).
//! Main promise: each call answers, and leaves the sender and the clients' lists, as the definitions of the crate `sending` say, whose laws
//! hold of every life.
#![tactic(auto)]

mod calls;
mod laying;
mod sender;

pub use sender::Sender;
