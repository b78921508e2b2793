//! An inlet over heap memory: for each client a queue of the blocks of its packets, in the order in which these came.
//! What a call costs does not depend on what waits for other clients.
//! Main promise: a packet added puts just its blocks behind those of its client, and each `next` gives and removes the client's first.
#![tactic(auto)]

ghost use Rattle.std.specs.Prelude.{◌≡◌, vec_len, sum_by};
ghost use Rattle.std.specs.VecDeque.{deque_len};

use block::Block;
use std::collections::VecDeque;

mod calls;

pub use calls::{AddError, NothingWaits};

/// The blocks that wait, a queue for each of the 480 clients.
#[derive(Drop)]
pub struct ClientQueues {
    // by rising client
    queues: Vec<VecDeque<Block>>,
    // of all clients together
    blocks: usize,
    ghost all: { vec_len queues ≡ 480 },
    ghost counted: { blocks ≡ sum_by deque_len queues.items },
}
