//! A tape: a store of blocks in one queue over lent entries, each tagged with its client; all clients share the places.
//! A place that holds one client's block is free for nobody; once the block is taken out it is free for everybody.
//! Main promise: the tape is an inlet and an outlet, and the list it holds for a client is the list that waits for it.
#![tactic(auto)]

ghost use Rattle.std.specs.Prelude.{◌≡◌, [], length};
ghost use Rattle.port.specs.Model.{Put, empty_with, first_of, lists_after_next, put_answer};
ghost use Rattle.queue.specs.Entries.{without_first_with};
ghost use Rattle.tape.specs.Lists.{client_of, entries_after_put, tape_holding_after_next, tape_holding_after_put, tape_contents, tape_entries, tape_holding, tape_lists};

use block::{Block, Pair, Sync};
use numbers::ClientNumber;
use port::{Inlet, Outlet, Store};
use queue::{Keyed, Queue};
use refusal::Refusal;

/// A place of a tape: a block with the number of its client.
// No `PartialEq` and no `Debug`: the queue finds an entry by its key, and none is compared or printed.
#[derive(Clone, Copy)]
pub struct TaggedBlock {
    // 0 for no client: with an `Option<ClientNumber>` a read took 1.5 times and a move 2 times as long
    client: u16,
    block: Block,
}

impl TaggedBlock {
    /// What a place holds before its first use: a block of no client.
    pub const UNUSED: TaggedBlock = TaggedBlock {
        client: 0,
        block: Block {
            sync: Sync::Zeros,
            bytes: [0; 8],
        },
    };
}

impl Keyed for TaggedBlock {
    ghost key_of = { λ e. e.client };

    fn key(&self) -> u16 {
        self.client
    }
}

/// Blocks of all clients in one queue, in the order in which they were put.
#[derive(Drop)]
pub struct Tape<'a> {
    queue: Queue<'a, TaggedBlock>,
}

impl<'a> Tape<'a> {
    /// A tape that holds nothing, with as many places as there are entries.
    pub fn new(entries: &'a mut [TaggedBlock]) -> Tape<'a>
        ensures holding { tape_holding result ≡ empty_with (λ _. length entries.old) }
        ensures contents { tape_contents result ≡ record { entries = []; places = length entries.old; lender = entries.entry.ghost_name } }
    {
        Tape {
            queue: Queue::new(entries),
        }
    }
}

impl<'a> Inlet for Tape<'a> {
    ghost waiting = { tape_lists };

    fn next(&mut self, client: ClientNumber) -> Option<Block>
        ensures first { result ≡ first_of (tape_lists self.old client) }
        ensures rest { tape_lists self.new ≡ lists_after_next client (tape_lists self.old) }
        ensures holding { tape_holding self.new ≡ tape_holding_after_next client (tape_holding self.old) }
        ensures contents { tape_contents self.new ≡ record (tape_contents self.old) { entries = without_first_with client_of client (tape_entries self.old) } }
    {
        let entry = self.queue.remove_first_with(client.number())?;
        Some(entry.block)
    }
}

impl<'a> Outlet for Tape<'a> {
    ghost holding = { tape_holding };

    fn free(&self, _client: ClientNumber) -> usize {
        self.queue.free()
    }

    fn put(&mut self, client: ClientNumber, pair: Pair) -> Result<(), Refusal>
        ensures answer { result ≡ put_answer ((tape_holding self.old).free client) }
        ensures put { Put client pair result (tape_holding self.old) (tape_holding self.new) }
        ensures holding { tape_holding self.new ≡ tape_holding_after_put result client pair (tape_holding self.old) }
        ensures contents { tape_contents self.new ≡ record (tape_contents self.old) { entries = entries_after_put result client pair (tape_entries self.old) } }
    {
        if self.queue.free() < 2 {
            return Err(Refusal::NoFreePlace);
        }
        let client = client.number();
        self.queue.add(TaggedBlock {
            client,
            block: pair.first,
        })?;
        self.queue.add(TaggedBlock {
            client,
            block: pair.second,
        })
    }
}

impl<'a> Store for Tape<'a> {
    ghost use Rattle.std.proofs.Common.{refl};

    ghost one_list = { λ tape. refl };

    fn first(&self, client: ClientNumber) -> Option<Block> {
        let entry = self.queue.first_with(client.number())?;
        Some(entry.block)
    }
}
