//! A sender over a path: what leaves it at each call, as definitions over calendar, trail, clients' lists and messages, and the laws of
//! every life of one. The code of a sender stands above and cites these definitions.
//! Main promise: in every life the line is whole frames and gap blocks by the schedule, the frames carry what the clients' inlets gave,
//! and each message that is left goes out whole, once, in order and on time.
#![tactic(auto)]

pub mod laws;
