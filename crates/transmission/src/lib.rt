//! What goes on the line for packets: a sender with the packets' blocks at its inlet, a block a call, until the goal is reached.
//! While the far end learns the calendar nothing waits; then all packets do.
//! Main promise: each block is the sender's next, from what waits then, and no block comes behind the last that the goal allows.
#![tactic(auto)]

mod calls;

use client_queues::ClientQueues;
use progress::Progress;
use sender::Sender;

/// A sender, the packets' blocks that wait, and how far sending has come.
#[derive(Drop)]
pub struct Transmission {
    sender: Sender,
    queues: ClientQueues,
    progress: Progress,
}
