//! A packet put into an outlet: pair by pair from an inlet of its own, whole or not at all.

ghost use Rattle.std.specs.Prelude.{◌≡◌, true, [], ◌∷◌, length};
ghost use Rattle.packet.specs.Format.{is_packet_length};
ghost use Rattle.packet_inlet.specs.Stored.{PacketPut};

use crate::PacketInlet;
use block::Block;
use numbers::ClientNumber;
use packet::{block_count, is_packet_length};
use port::Outlet;
use refusal::Refusal;

// Puts the one packet that the lengths cut, which is lawful, into the outlet for the client.
fn put_only<'a, O: Outlet>(
    outlet: &mut O,
    client: ClientNumber,
    lengths: &'a [u16],
    packet: &'a [u8],
) -> Result<usize, Refusal>
    requires only { lengths.now ≡ length packet.now ∷ [] }
    requires lawful { is_packet_length (length packet.now) ≡ true }
    ensures { PacketPut client packet.now result (O.holding outlet.old) (O.holding outlet.new) }
{
    let mut inlet = PacketInlet::new(client, lengths, packet)?;
    let blocks = block_count(packet.len());
    port::move_pairs(&mut inlet, outlet, client, (blocks + 1) / 2, Block::idle())?;
    Ok(blocks)
}

/// Puts a packet's blocks into the outlet for the client, with an idle behind an odd number; answers how many the packet has.
/// Refused with `PacketLength`, or with `NoFreePlace` where the places for all its blocks are not free; nothing is put then.
pub fn put_packet<O: Outlet>(
    outlet: &mut O,
    client: ClientNumber,
    packet: &[u8],
) -> Result<usize, Refusal>
    ensures { PacketPut client packet.now result (O.holding outlet.old) (O.holding outlet.new) }
{
    if !is_packet_length(packet.len()) {
        return Err(Refusal::PacketLength);
    }
    let lengths = [packet.len() as u16];
    put_only(outlet, client, &lengths, packet)
}
