//! What waits of one sort of messages.

ghost use Rattle.std.specs.Prelude.{◌≡◌, ◌≤◌, if◌then◌else◌, true, Err, IsTrue, Ok};
ghost use Rattle.message.specs.Kinds.{block_count_of};
ghost use Rattle.message.specs.Values.{filled_values, lawful};
ghost use Rattle.message.specs.Written.{message_blocks};
ghost use Rattle.refusal.specs.declared.Refusal.TheVariants.{MessageInvalid, MessageWaits};
ghost use Rattle.waiting.specs.Messages.{next_block, nothing_waits, with_one_gone, waits};

use block::Block;
use message::Kind;
use refusal::Refusal;
use std::marker::Model;

// Blocks of the longest message that may be left, a 2DMR.
const MOST: usize = 13;

/// A message's blocks, of which some are gone; none waits where all are.
#[derive(Drop)]
pub(crate) struct MessageWaiting {
    blocks: [Block; MOST],
    count: usize,
    gone: usize,
}

impl Model for MessageWaiting {
    ghost use Rattle.std.specs.Prelude.{◌≡◌, ◌≤◌, length, take};
    ghost use Rattle.refusal.specs.declared.Refusal.TheVariants.{MessageInvalid, MessageWaits};
    ghost use Rattle.waiting.specs.Messages.{WaitingMessage};

    ghost Value = { WaitingMessage };

    ghost view = { λ w. record { blocks = take w.count w.blocks; gone = w.gone } };

    ghost invariant = { λ w. (length w.blocks ≡ 13) × (w.count ≤ 13) × (w.gone ≤ w.count) };
}

impl MessageWaiting {
    // None.
    pub(crate) fn none() -> MessageWaiting
        ensures { result ≡ nothing_waits }
    {
        MessageWaiting {
            blocks: [Block::idle(); MOST],
            count: 0,
            gone: 0,
        }
    }

    // Is a block still to go?
    #[tactic(auto, using(crate::proofs::Fronts::front_waits))]
    pub(crate) fn waits(&self) -> bool
        ensures { result ≡ waits self.now }
    {
        self.gone < self.count
    }

    // How many blocks are gone.
    pub(crate) fn gone(&self) -> usize
        ensures { result ≡ self.now.gone }
    {
        self.gone
    }

    // The next block, which is gone then.
    #[tactic(auto, using(crate::proofs::Fronts::front_below))]
    pub(crate) fn next(&mut self) -> Block
        requires { IsTrue (waits self.old) }
        ensures block { result ≡ next_block self.old }
        ensures after { self.new ≡ with_one_gone self.old }
    {
        let block = self.blocks[self.gone];
        self.gone += 1;
        block
    }

    // Takes a message in, which waits from its first block on. Refused are values that make none of its kind, and then a message where one
    // waits.
    pub(crate) fn leave(&mut self, kind: Kind, values: &[u8]) -> Result<(), Refusal>
        requires { block_count_of kind ≤ 13 }
        ensures answer { result ≡ (if lawful kind values.now then (if waits self.old then Err MessageWaits else Ok tt) else Err MessageInvalid) }
        ensures after { self.new ≡ (if lawful kind values.now then (if waits self.old then self.old else record { blocks = message_blocks kind (filled_values values.now); gone = 0 }) else self.old) }
    {
        if !message::lawful(kind, values) {
            return Err(Refusal::MessageInvalid);
        }
        if self.waits() {
            return Err(Refusal::MessageWaits);
        }
        self.fill(kind, values);
        Ok(())
    }

    // Writes a lawful message in the place of what is gone.
    fn fill(&mut self, kind: Kind, values: &[u8])
        requires few { block_count_of kind ≤ 13 }
        requires lawful { lawful kind values.now ≡ true }
        ensures { self.new ≡ record { blocks = message_blocks kind (filled_values values.now); gone = 0 } }
    {
        self.gone = 0;
        self.count = message::write(kind, values, &mut self.blocks).unwrap_or(0);
    }
}
