//! An inlet of a single client. Its list is made from packets, which the caller lends as two slices: all their bytes, and their lengths.
//! Each packet's blocks come in order: its start block, its data blocks, its end and one idle; then the next packet's.
//! Main promise: a new inlet's list is exactly the blocks of all its packets, and each call gives and removes the first.
#![tactic(auto)]

ghost use Rattle.std.specs.Prelude.{◌≡◌, [], drop};
ghost use Rattle.packet.specs.Format.{packet_blocks};
ghost use Rattle.port.specs.Model.{first_of, rest_of};
ghost use Rattle.packet_inlet.specs.Packets.{CutWhole, are_lengths};
ghost use Rattle.packet_inlet.specs.Waiting.{blocks_left, meaning, new_answer, waiting_at};

mod reader;
mod store;

use block::Block;
use numbers::ClientNumber;
use packet::{block_at, block_count, is_packet_length};
use port::Inlet;
pub use reader::PacketReader;
use refusal::Refusal;
pub use store::put_packet;

/// The packets of one client, lent as lengths and joined bytes: no memory is needed beside the caller's.
#[derive(Drop)]
pub struct PacketInlet<'a> {
    // a number: with a `ClientNumber` here the check has no rule for a caller's `?` on what `new` answers
    client: u16,
    // the packet under way, and how many of its blocks are given
    packet: &'a [u8],
    place: usize,
    // the packets behind it
    lengths: &'a [u16],
    bytes: &'a [u8],
}

// Are these lengths of packets that add up to so many bytes?
fn are_lengths(lengths: &[u16], bytes: usize) -> bool
    ensures { result ≡ are_lengths lengths.now bytes }
{
    let mut left = bytes;
    for length in lengths {
        let length = *length as usize;
        if !is_packet_length(length) || left < length {
            return false;
        }
        left -= length;
    }
    left == 0
}

impl<'a> PacketInlet<'a> {
    /// The inlet of a client with these packets, or `PacketLength` where the lengths are not those of packets, or not of all
    /// the bytes. No packet is under way, as after one given whole.
    pub fn new(
        client: ClientNumber,
        lengths: &'a [u16],
        bytes: &'a [u8],
    ) -> Result<PacketInlet<'a>, Refusal>
        ensures answer { meaning result ≡ new_answer client lengths.now bytes.now }
        ensures whole { CutWhole lengths.now bytes.now }
    {
        if !are_lengths(lengths, bytes.len()) {
            return Err(Refusal::PacketLength);
        }
        Ok(PacketInlet {
            client: client.number(),
            packet: &[],
            place: block_count(0),
            lengths,
            bytes,
        })
    }

    // Begins the next packet, if there is one, and gives its start block.
    fn open_next(&mut self) -> Option<Block>
        requires { drop self.old.place (packet_blocks self.old.packet.now) ≡ [] }
        ensures client { self.new.client ≡ self.old.client }
        ensures first { result ≡ first_of (blocks_left self.old) }
        ensures rest { blocks_left self.new ≡ rest_of (blocks_left self.old) }
    {
        let [length, lengths @ ..] = self.lengths else {
            return None;
        };
        let cut = self.bytes.len().min(*length as usize);
        let (packet, bytes) = self.bytes.split_at(cut);
        self.packet = packet;
        self.place = 1;
        self.lengths = lengths;
        self.bytes = bytes;
        block_at(self.packet, 0)
    }
}

impl<'a> Inlet for PacketInlet<'a> {
    ghost waiting = { waiting_at };

    fn next(&mut self, client: ClientNumber) -> Option<Block> {
        if client.number() != self.client {
            return None;
        }
        if let Some(block) = block_at(self.packet, self.place) {
            self.place += 1;
            return Some(block);
        }
        self.open_next()
    }
}

#[cfg(test)]
mod tests {
    use super::*;
    use std::test::Fail;

    // Bytes 0, 1, 2 and so on.
    fn counting() -> [u8; 135] {
        let mut bytes = [0; 135];
        for i in 0..135u8 {
            bytes[i as usize] = i;
        }
        bytes
    }

    // Packets of 64 and 71 bytes, by the first two bytes of each block.
    #[test]
    fn two_packets(rt: HostRuntime) -> Result<(), Fail> {
        let bytes = counting();
        let own = ClientNumber::try_from(7)?;
        let other = ClientNumber::try_from(8)?;
        let mut inlet = PacketInlet::new(own, &[64, 71], &bytes)?;
        let table = [
            (0x78, 0x55),
            (0, 1),
            (8, 9),
            (16, 17),
            (24, 25),
            (32, 33),
            (40, 41),
            (48, 49),
            (56, 57),
            (0x87, 0),
            (0x1E, 0),
            (0x78, 0x55),
            (64, 65),
            (72, 73),
            (80, 81),
            (88, 89),
            (96, 97),
            (104, 105),
            (112, 113),
            (120, 121),
            (0xFF, 128),
            (0x1E, 0),
        ];
        for two in table {
            assert_eq!(rt; inlet.next(other), None);
            let block = inlet.next(own).ok_or("no block")?;
            assert_eq!(rt; (block.bytes[0], block.bytes[1]), two);
        }
        assert_eq!(rt; inlet.next(own), None);
        Ok(())
    }

    fn refusal_of<'a>(lengths: &'a [u16], bytes: &'a [u8]) -> Result<Option<Refusal>, Fail> {
        let client = ClientNumber::try_from(7)?;
        Ok(PacketInlet::new(client, lengths, bytes).err())
    }

    #[test]
    fn refused_lengths(rt: HostRuntime) -> Result<(), Fail> {
        let bytes = counting();
        let wrong = Some(Refusal::PacketLength);
        assert_eq!(rt; refusal_of(&[64, 71], &bytes)?, None);
        assert_eq!(rt; refusal_of(&[64, 70], &bytes)?, wrong);
        assert_eq!(rt; refusal_of(&[64, 72], &bytes)?, wrong);
        assert_eq!(rt; refusal_of(&[63, 72], &bytes)?, wrong);
        assert_eq!(rt; refusal_of(&[], &bytes)?, wrong);
        assert_eq!(rt; refusal_of(&[], &[])?, None);
        Ok(())
    }

    // The two packets read through few places: the idle behind the first is removed by hand, and a refusal loses nothing.
    #[test]
    fn two_packets_read(rt: HostRuntime) -> Result<(), Fail> {
        let bytes = counting();
        let own = ClientNumber::try_from(7)?;
        let mut inlet = PacketInlet::new(own, &[64, 71], &bytes)?;
        let mut places = [Block::idle(); 12];
        let mut reader = PacketReader::new(own, &mut places);
        let mut back = [0; 71];
        let short = Err(Refusal::OutputTooShort);
        let none = Err(Refusal::NoPacket);
        assert_eq!(rt; reader.take_packet(&mut inlet, &mut back[0..63]), short);
        assert_eq!(rt; reader.blocks().len(), 12);
        assert_eq!(rt; reader.take_packet(&mut inlet, &mut back), Ok((64, 10)));
        assert_eq!(rt; (back[0], back[63], back[64]), (0, 63, 0));
        assert_eq!(rt; reader.take_packet(&mut inlet, &mut back), none);
        assert_eq!(rt; reader.remove_first(), Some(Block::idle()));
        assert_eq!(rt; reader.take_packet(&mut inlet, &mut back), Ok((71, 10)));
        assert_eq!(rt; (back[0], back[70]), (64, 134));
        assert_eq!(rt; reader.take_packet(&mut inlet, &mut back), none);
        assert_eq!(rt; reader.remove_first(), Some(Block::idle()));
        assert_eq!(rt; reader.remove_first(), None);
        Ok(())
    }
}
