//! Frames (ITU-T G.8312, Annex A): a start block, 990 data blocks and an end block, which carry seven overhead bytes and the payload.
//! Blocks are made and stored one at a time, straight from and into overhead and payload, so no frame is copied.
//! Main promise: each block is the one that the definition `frame_block` gives, and what is put together is taken apart unchanged.
#![tactic(auto)]

ghost use Rattle.std.specs.Prelude.{◌≡◌, ◌+◌, ◌-◌, ◌*◌, ◌≤◌, ◌∷◌, ◌++◌, length, take, drop};
ghost use Rattle.frame.specs.Frames.{FrameRestored, IsFrameShape, carried_after, carried_by, frame_block, frame_of, with_data};
ghost use Rattle.frame.specs.Places.{IsPlace, is_data_place};
ghost use Rattle.frame.specs.Steps.{ByBlocks};
ghost use Rattle.frame.specs.SlotStarts.{SlotStarts, SlotsBeginThere, slot_start};
ghost use Rattle.numbers.specs.Range.{IsOneTo480};
ghost use Rattle.bits.specs.Splices.{splice};

/// Places of blocks in a frame.
pub mod place;

use block::{Block, Sync};
use numbers::SlotNumber;
use payload::{Payload, slot_bit};
use place::FramePlace;

// Overhead and payload stay two parameters of all that follows: a payload is packed where it lies, in lent memory, and each frame's
// overhead is written apart from it.
/// The seven bytes that open data block 1.
pub type OverheadBytes = [u8; 7];

/// The block at a place of the frame with this overhead and payload.
pub fn block_at(overhead: &OverheadBytes, payload: &Payload, place: FramePlace) -> Block
    ensures made { result ≡ frame_block (overhead.now ++ payload.now) place }
    ensures range { IsPlace place }
{
    // By the number, here and in `store_block`, and data blocks first, since nearly all are: an enum of the four kinds would need a
    // definition and a law that say which number is which.
    let n = place.position();
    if 2 < n && n < 992 {
        return data(payload, 8 * n - 23);
    }
    match n {
        1 => Block::start(),
        2 => first_data(overhead, payload),
        _ => end(payload),
    }
}

/// Where in a frame a slot begins: the number of the data block, from 1, the byte in it and the bit in that, both from 0.
#[derive(Clone, Copy, Debug, PartialEq, Eq)]
pub struct SlotStart {
    /// Of the data blocks, 1 to 990.
    pub block: u16,
    /// Of the block's bytes, 0 to 7.
    pub byte: u8,
    /// Of the byte's bits, 0 or 4.
    pub bit: u8,
}

/// Where a slot begins.
#[tactic(auto, using(crate::proofs::Starts::slots_begin_there))]
pub fn slot_start(slot: SlotNumber) -> SlotStart
    ensures made { result ≡ slot_start slot }
    ensures range { IsOneTo480 slot }
    ensures values { SlotStarts }
    ensures there { SlotsBeginThere }
{
    let bit = slot_bit(slot);
    let byte = 7 + bit / 8;
    SlotStart {
        block: (byte / 8 + 1) as u16,
        byte: (byte % 8) as u8,
        bit: (bit % 8) as u8,
    }
}

// Data block 1: the overhead and the first byte of the payload.
#[tactic(auto, using(crate::proofs::Carried::opening))]
fn first_data(overhead: &OverheadBytes, payload: &Payload) -> Block
    ensures { result ≡ frame_block (overhead.now ++ payload.now) 2 }
{
    let [a, b, c, d, e, f, g] = *overhead;
    Block {
        sync: Sync::Data,
        bytes: [a, b, c, d, e, f, g, payload[0]],
    }
}

// A data block with the eight payload bytes from byte `at` on.
fn data(payload: &Payload, at: usize) -> Block
    requires { at + 8 ≤ 7920 }
    ensures kind { result.sync ≡ Sync.Data }
    ensures taken { result.bytes ≡ take 8 (drop at payload.now) }
{
    Block {
        sync: Sync::Data,
        bytes: <[u8; 8]>::try_from(&payload[at..at + 8]).unwrap(),
    }
}

// The end block, with the last seven bytes of the payload.
#[tactic(auto, using(crate::proofs::Carried::last_seven))]
fn end(payload: &Payload) -> Block
    ensures kind { result.sync ≡ Sync.Control }
    ensures taken { result.bytes ≡ 0xFF ∷ drop 7913 payload.now }
{
    let mut bytes = [0xFF; 8];
    bytes[1..8].copy_from_slice(&payload[7913..7920]);
    Block {
        sync: Sync::Control,
        bytes,
    }
}

/// Stores what the block at a place carries, and leaves all other bytes; a start block carries nothing.
#[tactic(auto, using(crate::proofs::Frames::frame_restored, crate::proofs::Storing::past_stored, crate::proofs::Storing::stored_data))]
pub fn store_block(
    block: &Block,
    place: FramePlace,
    overhead: &mut OverheadBytes,
    payload: &mut Payload,
)
    ensures kept { overhead.new ++ payload.new ≡ carried_after place block.now.bytes (overhead.old ++ payload.old) }
    ensures eight { length block.now.bytes ≡ 8 }
    ensures long { (length overhead.new ≡ 7) × (length payload.new ≡ 7920) }
    ensures range { IsPlace place }
    ensures restored { FrameRestored }
{
    let n = place.position();
    let bytes = block.bytes;
    if 2 <= n && n < 992 {
        put_data(bytes, n, overhead, payload);
        return;
    }
    if n == 992 {
        store(&bytes[1..8], payload, 7913);
    }
}

/// Stores the eight bytes of a data block, and leaves all other bytes; answers whether the place, 2 to 991, is a data block's, and where it is
/// not leaves all.
pub fn store_data(
    block: &Block,
    place: usize,
    overhead: &mut OverheadBytes,
    payload: &mut Payload,
) -> bool
    ensures answer { result ≡ is_data_place place }
    ensures kept { overhead.new ++ payload.new ≡ with_data place block.now.bytes (overhead.old ++ payload.old) }
    ensures eight { length block.now.bytes ≡ 8 }
    ensures long { (length overhead.new ≡ 7) × (length payload.new ≡ 7920) }
{
    let bytes = block.bytes;
    if 2 <= place && place < 992 {
        put_data(bytes, place, overhead, payload);
        true
    } else {
        false
    }
}

/// A frame is sent and stored block by block: the next block, the frame so far and a block more, and the parts of every frame.
#[tactic(auto, using(crate::proofs::Steps::by_blocks))]
pub fn by_blocks()
    ensures { ByBlocks }
{}

/// Writes the 992 blocks of the frame with this overhead and payload.
pub fn assemble(overhead: &OverheadBytes, payload: &Payload, blocks: &mut [Block; 992])
    ensures made { blocks.new ≡ frame_of (overhead.now ++ payload.now) }
    ensures shaped { IsFrameShape blocks.new }
    ensures undone { carried_by blocks.new ≡ overhead.now ++ payload.now }
{
    for (i, block) in blocks.iter_mut().enumerate() {
        *block = block_at(overhead, payload, FramePlace::of_index(i));
    }
}

/// Reads overhead and payload from the 992 blocks of a frame, whatever their sync bits and types.
pub fn take_apart(blocks: &[Block; 992], overhead: &mut OverheadBytes, payload: &mut Payload)
    ensures { overhead.new ++ payload.new ≡ carried_by blocks.now }
{
    for (i, block) in blocks.iter().enumerate() {
        store_block(block, FramePlace::of_index(i), overhead, payload);
    }
}

// Stores the eight bytes of the data block at a place: a copy, which is known to lie apart from the payload. With those of the caller's
// block each store first asks whether the two overlap.
#[tactic(auto, using(crate::proofs::Storing::past_stored))]
fn put_data(bytes: [u8; 8], place: usize, overhead: &mut OverheadBytes, payload: &mut Payload)
    requires { (2 ≤ place) × (place ≤ 991) }
    ensures kept { overhead.new ++ payload.new ≡ splice (8 * (place - 2)) bytes (overhead.old ++ payload.old) }
    ensures long { (length overhead.new ≡ 7) × (length payload.new ≡ 7920) }
{
    if 2 < place {
        store(&bytes, payload, 8 * place - 23);
    } else {
        store_first(&bytes, overhead, payload);
    }
}

// Stores the bytes of data block 1.
#[tactic(auto, using(crate::proofs::Storing::first_written))]
fn store_first(bytes: &[u8; 8], overhead: &mut OverheadBytes, payload: &mut Payload)
    ensures { overhead.new ++ payload.new ≡ splice 0 bytes.now (overhead.old ++ payload.old) }
{
    let [a, b, c, d, e, f, g, last] = *bytes;
    *overhead = [a, b, c, d, e, f, g];
    payload[0] = last;
}

// Stores bytes in the payload, from byte `at` on.
#[tactic(auto, using(crate::proofs::Storing::part_stored))]
fn store(bytes: &[u8], payload: &mut Payload, at: usize)
    requires { at + length bytes.now ≤ 7920 }
    ensures { payload.new ≡ splice at bytes.now payload.old }
{
    payload[at..at + bytes.len()].copy_from_slice(bytes);
}

#[cfg(test)]
mod tests {
    use super::*;
    use std::test::Fail;

    #[test]
    fn blocks_of_a_frame(rt: HostRuntime) -> Result<(), Fail> {
        let overhead = [1, 2, 3, 4, 5, 6, 7];
        let mut payload = [0u8; 7920];
        for (i, byte) in payload.iter_mut().enumerate() {
            *byte = (i % 251) as u8;
        }
        // 7,911 is 31 × 251 + 130
        let table = [
            (1, Sync::Control, [0x78, 0, 0, 0, 0, 0, 0, 0]),
            (2, Sync::Data, [1, 2, 3, 4, 5, 6, 7, 0]),
            (3, Sync::Data, [1, 2, 3, 4, 5, 6, 7, 8]),
            (991, Sync::Data, [124, 125, 126, 127, 128, 129, 130, 131]),
            (
                992,
                Sync::Control,
                [0xFF, 132, 133, 134, 135, 136, 137, 138],
            ),
        ];
        for (number, sync, bytes) in table {
            let place = FramePlace::try_from(number)?;
            assert_eq!(rt; block_at(&overhead, &payload, place), Block { sync, bytes });
        }
        Ok(())
    }

    // That a slot begins in one of the 990 data blocks can be proved of every caller's slot.
    fn data_block_of(slot: SlotNumber) -> u16
        ensures { result ≤ 990 }
    {
        slot_start(slot).block
    }

    #[test]
    fn starts(rt: HostRuntime) -> Result<(), Fail> {
        for (slot, block, byte, bit) in [(1, 1, 7, 0), (2, 3, 7, 4), (480, 989, 6, 4)] {
            let slot = SlotNumber::try_from(slot)?;
            assert_eq!(rt; slot_start(slot), SlotStart { block, byte, bit });
            assert_eq!(rt; data_block_of(slot), block);
        }
        assert!(rt; FramePlace::try_from(0).is_err() && FramePlace::try_from(993).is_err());
        Ok(())
    }
}
