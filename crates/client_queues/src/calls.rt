//! The calls of the queues, apart from the struct, whose ghost fields may not see the definitions that name it.

ghost use Rattle.std.specs.Prelude.{◌≡◌, ◌==◌, ◌↔◌, false, length, IfOk, OnErr, OnOk, Err};
ghost use Rattle.port.specs.Model.{first_of, lists_after_next};
ghost use Rattle.packet.specs.Format.{is_packet_length, packet_blocks};
ghost use Rattle.client_queues.specs.Waiting.{blocks_waiting, none_wait, waiting_in, with_packet};
ghost use Rattle.client_queues.specs.declared.calls.AddError.TheVariants.{PacketLength};

use crate::ClientQueues;
use block::Block;
use numbers::{ClientNumber, SLOTS};
use packet::{block_at, block_count, is_packet_length};
use port::Inlet;
use std::alloc::{AllocError, AllocFailed, Global};
use std::collections::VecDeque;

/// Why a packet is not added.
#[derive(Clone, Copy, Debug, PartialEq, Eq)]
pub enum AddError {
    /// Its length is outside 64 to 2,000 bytes.
    PacketLength,
    /// There is no memory for its blocks.
    Memory,
}

impl From<AllocError> for AddError {
    ghost use Rattle.std.specs.Prelude.{◌≡◌};
    ghost use Rattle.client_queues.specs.declared.calls.AddError.TheVariants.{Memory};

    ghost from_gives = { λ _ error. error ≡ Memory };

    fn from(_error: AllocError) -> AddError {
        AddError::Memory
    }
}

// The blocks of a packet.
fn packet_blocks(alloc: Global, packet: &[u8]) -> Result<VecDeque<Block>, AllocError>
    ensures { IfOk result (λ blocks. blocks.items ≡ packet_blocks packet.now) }
{
    let mut blocks = VecDeque::with_capacity(alloc, block_count(packet.len()))?;
    while let Some(block) = block_at(packet, blocks.len()) {
        blocks.push_back(block)?;
    }
    Ok(blocks)
}

impl ClientQueues {
    /// Queues with nothing in them.
    pub fn new(alloc: Global) -> Result<ClientQueues, AllocError>
        ensures { IfOk result (λ queues. waiting_in queues ≡ none_wait) }
    {
        let mut queues = Vec::with_capacity(alloc, SLOTS)?;
        for _ in 0..SLOTS {
            queues.push(VecDeque::new(alloc))?;
        }
        Ok(ClientQueues { queues, blocks: 0 })
    }

    /// How many blocks wait, of all clients.
    #[tactic(auto, using(crate::proofs::Lists::waiting_known))]
    pub fn len(&self) -> usize
        ensures { result ≡ blocks_waiting (waiting_in self.now) }
    {
        self.blocks
    }

    /// Does no block wait?
    #[tactic(auto, using(crate::proofs::Lists::waiting_known))]
    pub fn is_empty(&self) -> bool
        ensures { result ≡ (blocks_waiting (waiting_in self.now) == 0) }
    {
        self.blocks == 0
    }

    /// Puts the blocks of a packet behind those that wait for the client: its start block, its data blocks, its end and one idle.
    /// Where it is refused, or memory is short, what waits is as before.
    pub fn add(&mut self, client: ClientNumber, packet: &[u8]) -> Result<(), AddError>
        ensures ok { OnOk result (waiting_in self.new ≡ with_packet client packet.now (waiting_in self.old)) }
        ensures err { OnErr result (waiting_in self.new ≡ waiting_in self.old) }
        ensures length { (result ≡ Err PacketLength) ↔ (is_packet_length (length packet.now) ≡ false) }
    {
        if !is_packet_length(packet.len()) {
            return Err(AddError::PacketLength);
        }
        let mut blocks = packet_blocks(*self.queues.allocator(), packet)?;
        let total = self.blocks.checked_add(blocks.len()).ok_or(AllocError)?;
        self.queues[client.index()].append(&mut blocks)?;
        self.blocks = total;
        Ok(())
    }
}

impl Inlet for ClientQueues {
    ghost waiting = { waiting_in };

    #[tactic(auto, using(crate::proofs::Lists::given_first, crate::proofs::Lists::none_first))]
    fn next(&mut self, client: ClientNumber) -> Option<Block> {
        let block = self.queues[client.index()].pop_front()?;
        self.blocks -= 1;
        Some(block)
    }
}

/// An inlet at which nothing waits for any client.
#[derive(Clone, Copy, Debug, PartialEq, Eq)]
pub struct NothingWaits;

impl Inlet for NothingWaits {
    ghost waiting = { λ _. none_wait };

    #[tactic(auto, using(port::proofs::Lists::none_removed))]
    fn next(&mut self, _client: ClientNumber) -> Option<Block> {
        None
    }
}

#[cfg(test)]
mod tests {
    use super::*;
    use std::test::Fail;

    // Packets of clients 7 and 480: each gets its own, in order, and a packet that is refused leaves all as before.
    #[test]
    fn packets_by_client(rt: HostRuntime) -> Result<(), Fail> {
        let mut queues = ClientQueues::new(rt.alloc())?;
        assert!(rt; queues.is_empty());
        let seven = ClientNumber::try_from(7)?;
        let last = ClientNumber::try_from(480)?;
        let bytes = [0xAB; 2001];
        assert_eq!(rt; queues.add(seven, &bytes[..64]), Ok(()));
        assert_eq!(rt; queues.add(last, &bytes[..2000]), Ok(()));
        assert_eq!(rt; queues.add(seven, &[0xCD; 71]), Ok(()));
        assert_eq!(rt;
            queues.add(seven, &bytes[..63]),
            Err(AddError::PacketLength)
        );
        assert_eq!(rt; queues.add(seven, &bytes), Err(AddError::PacketLength));
        assert_eq!(rt; queues.len(), 11 + 253 + 11);
        let table = [
            (0x78, 0x55),
            (0xAB, 0xAB),
            (0xAB, 0xAB),
            (0xAB, 0xAB),
            (0xAB, 0xAB),
            (0xAB, 0xAB),
            (0xAB, 0xAB),
            (0xAB, 0xAB),
            (0xAB, 0xAB),
            (0x87, 0),
            (0x1E, 0),
            (0x78, 0x55),
            (0xCD, 0xCD),
        ];
        for two in table {
            let block = queues.next(seven).ok_or("no block")?;
            assert_eq!(rt; (block.bytes[0], block.bytes[1]), two);
        }
        assert_eq!(rt; queues.next(ClientNumber::try_from(8)?), None);
        assert_eq!(rt; queues.len(), 253 + 9);
        for _ in 0..253 {
            assert!(rt; queues.next(last).is_some());
        }
        assert_eq!(rt; queues.next(last), None);
        assert_eq!(rt; queues.len(), 9);
        Ok(())
    }
}
