//! Packets as blocks: a start block, data blocks of eight bytes, an end with the bytes that are left, and one idle.
//! A packet has 64 to 2,000 bytes; the reader looks at the front of the blocks and at nothing behind the end.
//! Main promise: `write` puts exactly the blocks of the packet, and `read` gives that packet back, whatever stands behind.
#![tactic(auto)]

ghost use Rattle.std.specs.Prelude.{◌≡◌, ◌+◌, ◌*◌, ◌<◌, ◌≤◌, ◌++◌, length, drop, true, false, None, IfOk, MatchOption};
ghost use Rattle.std.specs.List.{slice_get};
ghost use Rattle.block.specs.Classes.{class_of};
ghost use Rattle.packet.specs.Answers.{GivesBack, bytes_of, leaves, read_answer, write_answer};
ghost use Rattle.packet.specs.Format.{HasBlocks, SixtyFourBytes, block_count, data_block, end_block, is_packet_length, packet_blocks};
ghost use Rattle.packet.specs.Reading.{found_of_length, found_to_end, opens, packet_at};
ghost use Rattle.packet.specs.Spans.{Spans, span_bytes};

use block::{Block, Class, END_TYPES, Sync};
use refusal::Refusal;

const SHORTEST: usize = 64;

const LONGEST: usize = 2000;

// The start block of a packet.
const OPENING: Block = Block {
    sync: Sync::Control,
    bytes: [0x78, 0x55, 0x55, 0x55, 0x55, 0x55, 0x55, 0xD5],
};

/// May a packet have so many bytes?
pub fn is_packet_length(bytes: usize) -> bool
    ensures { result ≡ is_packet_length bytes }
{
    (SHORTEST..=LONGEST).contains(&bytes)
}

/// The number of blocks of a packet of so many bytes.
pub fn block_count(bytes: usize) -> usize
    ensures value { result ≡ block_count bytes }
    ensures blocks { HasBlocks bytes result }
    ensures sixty_four { SixtyFourBytes }
{
    bytes / 8 + 3
}

// The end that carries the bytes left, padded with zeros.
fn end_block(left: &[u8]) -> Block
    requires { length left.now < 8 }
    ensures { result ≡ end_block left.now }
{
    let mut bytes = [0; 8];
    bytes[0] = END_TYPES[left.len()];
    bytes[1..1 + left.len()].copy_from_slice(left);
    Block {
        sync: Sync::Control,
        bytes,
    }
}

// The data block that carries eight bytes.
fn data_block(bytes: [u8; 8]) -> Block
    ensures { result ≡ data_block bytes }
{
    Block {
        sync: Sync::Data,
        bytes,
    }
}

/// The packet's block at a place, counted from 0; none behind the idle.
pub fn block_at(packet: &[u8], place: usize) -> Option<Block>
    ensures { result ≡ slice_get (packet_blocks packet.now) place }
{
    if place == 0 {
        return Some(OPENING);
    }
    let (eights, left) = packet.as_chunks::<8>();
    // by comparison and not by `get`: what is subtracted below must be known to be no more than `at`
    let at = place - 1;
    if at < eights.len() {
        return Some(data_block(eights[at]));
    }
    match at - eights.len() {
        0 => Some(end_block(left)),
        1 => Some(Block::idle()),
        _ => None,
    }
}

/// Writes the packet's blocks at the front of the output, and answers how many they are.
pub fn write(packet: &[u8], out: &mut [Block]) -> Result<usize, Refusal>
    ensures answer { result ≡ write_answer packet.now (length out.old) }
    ensures output { out.new ≡ leaves result (packet_blocks packet.now) out.old }
{
    if !is_packet_length(packet.len()) {
        return Err(Refusal::PacketLength);
    }
    let count = block_count(packet.len());
    if out.len() < count {
        return Err(Refusal::OutputTooShort);
    }
    let (eights, left) = packet.as_chunks::<8>();
    out[0] = OPENING;
    // by place, here and in `copy_bytes`: the end behind them is written by place too, at the next one
    for (i, eight) in eights.iter().enumerate() {
        out[i + 1] = data_block(*eight);
    }
    out[eights.len() + 1] = end_block(left);
    out[eights.len() + 2] = Block::idle();
    Ok(count)
}

// The blocks behind the first, if that is the start block of a packet.
fn behind_opening(blocks: &[Block]) -> Option<&[Block]>
    ensures { MatchOption result (opens blocks.now ≡ false) (λ behind. (opens blocks.now ≡ true) × (behind.now ≡ drop 1 blocks.now)) }
{
    let [first, behind @ ..] = blocks else {
        return None;
    };
    (*first == OPENING).then_some(behind)
}

// How far a packet goes: its data blocks, and the bytes in the end behind them.
#[derive(Clone, Copy)]
struct Extent {
    whole: usize,
    left: usize,
}

// The class of a block, which has eight bytes: a block that is passed by value is known to have them.
fn class_of(block: Block) -> Class
    ensures class { result ≡ class_of block }
    ensures eight { length block.bytes ≡ 8 }
{
    block.class()
}

// How far data blocks and the end behind them go; no packet has more than 250 data blocks.
fn find_end(blocks: &[Block]) -> Option<Extent>
    ensures { MatchOption result (found_of_length (found_to_end blocks.now) ≡ None) (λ e. Spans blocks.now (found_of_length (found_to_end blocks.now)) e.whole e.left) }
{
    for (whole, block) in blocks.iter().enumerate() {
        match class_of(*block) {
            Class::Data => {
                if whole == LONGEST / 8 {
                    return None;
                }
            }
            Class::End(left) => {
                let left = left as usize;
                return is_packet_length(8 * whole + left).then_some(Extent { whole, left });
            }
            _ => return None,
        }
    }
    None
}

// The eight bytes of a block; copied by value, since a copy from behind the reference takes twice the time.
fn bytes_of(block: Block) -> [u8; 8]
    ensures bytes { result ≡ block.bytes }
    ensures eight { length result ≡ 8 }
{
    block.bytes
}

// Copies the bytes of the data blocks and of the end to the front of the output.
fn copy_bytes(blocks: &[Block], extent: Extent, out: &mut [u8])
    requires inside { extent.whole < length blocks.now }
    requires few { extent.left < 8 }
    requires room { 8 * extent.whole + extent.left ≤ length out.old }
    ensures { out.new ≡ span_bytes blocks.now extent.whole extent.left ++ drop (8 * extent.whole + extent.left) out.old }
{
    let Extent { whole, left } = extent;
    for (i, block) in blocks[..whole].iter().enumerate() {
        out[8 * i..8 * i + 8].copy_from_slice(&bytes_of(*block));
    }
    let end = bytes_of(blocks[whole]);
    out[8 * whole..8 * whole + left].copy_from_slice(&end[1..1 + left]);
}

/// Reads the packet at the front of the blocks into the front of the output.
/// Answers its length and the blocks from the start to the end, both included; the idle behind the end is not counted.
/// Refused with `NoPacket` where no packet stands there, one of a length that no packet may have included, and then with
/// `OutputTooShort`.
pub fn read(blocks: &[Block], out: &mut [u8]) -> Result<(usize, usize), Refusal>
    ensures answer { result ≡ read_answer (packet_at blocks.now) (length out.old) }
    ensures output { out.new ≡ leaves result (bytes_of (packet_at blocks.now)) out.old }
    ensures used { IfOk result (λ read. read.1 ≤ length blocks.now) }
    ensures back { GivesBack blocks.now out.old result out.new }
{
    let behind = behind_opening(blocks).ok_or(Refusal::NoPacket)?;
    let extent = find_end(behind).ok_or(Refusal::NoPacket)?;
    let bytes = 8 * extent.whole + extent.left;
    if out.len() < bytes {
        return Err(Refusal::OutputTooShort);
    }
    copy_bytes(behind, extent, out);
    Ok((bytes, extent.whole + 2))
}

#[cfg(test)]
mod tests {
    use super::*;
    use std::test::Fail;

    const FILL: Block = Block {
        sync: Sync::Ones,
        bytes: [0xEE; 8],
    };

    // Bytes 0, 1, 2 and so on, round at 256.
    fn counting() -> [u8; 2001] {
        std::array::from_fn(|i| (i % 256) as u8)
    }

    #[test]
    fn lengths(rt: HostRuntime) -> Result<(), Fail> {
        let bytes = counting();
        let table = [
            (63, Err(Refusal::PacketLength), 0),
            (64, Ok(11), 0x87),
            (71, Ok(11), 0xFF),
            (72, Ok(12), 0x87),
            (1999, Ok(252), 0xFF),
            (2000, Ok(253), 0x87),
            (2001, Err(Refusal::PacketLength), 0),
        ];
        for (length, answer, kind) in table {
            let packet = bytes.get(0..length).ok_or("long")?;
            let mut blocks = [FILL; 254];
            let mut back = [0xEE; 2001];
            assert_eq!(rt; write(packet, &mut blocks), answer);
            match answer {
                Ok(count) => {
                    assert!(rt; count >= 2 && count < 254);
                    assert_eq!(rt; blocks[count - 2].bytes[0], kind);
                    assert_eq!(rt; blocks[count], FILL);
                    assert_eq!(rt; read(&blocks, &mut back), Ok((length, count - 1)));
                    assert_eq!(rt; back.get(0..length).ok_or("long")?, packet);
                }
                Err(_) => assert_eq!(rt; blocks[0], FILL),
            }
        }
        Ok(())
    }

    // A packet of 71 bytes, 1 to 71, by its blocks; then damaged.
    #[test]
    fn blocks(rt: HostRuntime) {
        let bytes = counting();
        let packet = &bytes[1..72];
        let mut blocks = [FILL; 11];
        assert_eq!(rt;
            write(packet, &mut blocks[0..10]),
            Err(Refusal::OutputTooShort)
        );
        assert_eq!(rt; blocks[0], FILL);
        assert_eq!(rt; write(packet, &mut blocks), Ok(11));
        assert_eq!(rt;
            blocks[0].bytes,
            [0x78, 0x55, 0x55, 0x55, 0x55, 0x55, 0x55, 0xD5]
        );
        assert_eq!(rt; blocks[8].bytes, [57, 58, 59, 60, 61, 62, 63, 64]);
        assert_eq!(rt; blocks[9].bytes, [0xFF, 65, 66, 67, 68, 69, 70, 71]);
        assert_eq!(rt; blocks[10].bytes, [0x1E, 0, 0, 0, 0, 0, 0, 0]);
        let mut back = [0xEE; 71];
        // the output one byte short, no end, and both: there is no packet, however short the output
        assert_eq!(rt;
            read(&blocks, &mut back[0..70]),
            Err(Refusal::OutputTooShort)
        );
        assert_eq!(rt; read(&blocks[0..9], &mut back), Err(Refusal::NoPacket));
        assert_eq!(rt;
            read(&blocks[0..9], &mut back[0..70]),
            Err(Refusal::NoPacket)
        );
        assert_eq!(rt; back, [0xEE; 71]);
        // an end that carries no bytes leaves 64; its padding and the idle are not looked at
        blocks[9].bytes[0] = 0x87;
        blocks[10] = FILL;
        assert_eq!(rt; read(&blocks, &mut back), Ok((64, 10)));
        assert_eq!(rt; (back[63], back[64]), (64, 0xEE));
        blocks[0].bytes[7] = 0xD4;
        assert_eq!(rt; read(&blocks, &mut back), Err(Refusal::NoPacket));
    }
}
