//! Messages that are left with a sender and wait for their opportunities: a delay message and an APS message (ITU-T G.8312, clause 9.3).
//! Main promise: leaving is refused exactly as the definition `left_answer` says, and a message that is left gives its blocks, each once.
#![tactic(auto)]

mod left;
mod message_waiting;

pub use left::LeftMessages;

/// The sorts of messages that may be left. One of each may wait.
#[derive(Clone, Copy, Debug, PartialEq, Eq)]
pub enum Sort {
    /// 1DM, 2DMM and 2DMR, which go at low priority opportunities.
    Delay,
    /// APS, which goes at protection opportunities.
    Protection,
}
