//! Worked values of the formats as the library computes them, written as text.
//! Each is computed by the call that a user of the library makes, with bad input refused as that call refuses it.
//! Texts are `String`s, since they are compared with the text expected.
//! Main promise: each text is that of the value which the definition behind the call gives.
#![tactic(auto)]

ghost use Rattle.std.specs.Prelude.{◌≡◌, ◌≤◌, length, IfOk, Ok, Err, string_bytes};
ghost use Rattle.bits.specs.Bits.{field};
ghost use Rattle.crc.specs.Remainder.{remainder};
ghost use Rattle.numbers.specs.Range.{checked_number};
ghost use Rattle.overhead.specs.Format.{fields_of, read_bytes};
ghost use Rattle.value_text.specs.Texts.{seven_digits};
ghost use Rattle.vector_values.specs.Values.{checked_fields, end_type_text, made_fields, made_text, read_overhead, slot_text, written_message, written_overhead, written_packet};

use block::Block;
use crc::Generator;
use frame::SlotStart;
use message::Kind;
use numbers::{ClientNumber, FrameNumber, SlotNumber};
use overhead::{Overhead, OverheadFault};
use refusal::Refusal;
use std::alloc::{AllocError, Global};
use value_text::{block_text, hex, refused};

// The most blocks that a packet has, and a message: the places are lent to `write` from the stack, and it answers how many it took.
const PACKET_BLOCKS: usize = 253;

const MESSAGE_BLOCKS: usize = 17;

// By entry, as the tables of `vectors` write it; `from_entry` is where 0 becomes none.
// The overhead that announces a client, or none at entry 0.
fn overhead_of(entry: u16, frame: u16) -> Result<Overhead, Refusal>
    ensures { made_fields result ≡ checked_fields entry frame }
{
    let announced = ClientNumber::from_entry(entry)?;
    let frame = FrameNumber::try_from(frame)?;
    Ok(Overhead { announced, frame })
}

/// The bytes that `Overhead::write` makes; entry 0 announces no client.
pub fn overhead_written(alloc: Global, entry: u16, frame: u16) -> Result<String, AllocError>
    ensures { IfOk result (λ t. string_bytes t ≡ written_overhead (checked_fields entry frame)) }
{
    match overhead_of(entry, frame) {
        Ok(overhead) => hex(alloc, &overhead.write()),
        Err(cause) => refused(alloc, cause),
    }
}

// The numbers that an overhead says.
fn numbers_text(alloc: Global, overhead: Overhead) -> Result<String, AllocError>
    ensures { IfOk result (λ t. string_bytes t ≡ read_overhead (Ok (fields_of overhead))) }
{
    let Overhead { announced, frame } = overhead;
    let client = ClientNumber::entry(announced);
    let frame = frame.number();
    format!(in alloc; "client number {client}, frame number {frame}")
}

// Why an overhead is not read, in the words of the worked values; a `Display` of the fault would fix them for every user of `overhead`.
fn fault_text(fault: OverheadFault) -> &'static str
    ensures { result.now ≡ read_overhead (Err fault) }
{
    match fault {
        OverheadFault::WrongRemainder => "wrong CRC",
        OverheadFault::ClientTooHigh => "client number above 480",
        OverheadFault::FrameTooHigh => "frame number above 479",
    }
}

/// What `Overhead::read` answers.
pub fn overhead_read(alloc: Global, bytes: &[u8; 7]) -> Result<String, AllocError>
    ensures { IfOk result (λ t. string_bytes t ≡ read_overhead (read_bytes bytes.now)) }
{
    match Overhead::read(bytes) {
        Ok(overhead) => numbers_text(alloc, overhead),
        Err(fault) => String::from_str(alloc, fault_text(fault)),
    }
}

/// Where `frame::slot_start` says that a slot begins.
pub fn slot_text(alloc: Global, slot: u16) -> Result<String, AllocError>
    ensures { IfOk result (λ t. string_bytes t ≡ slot_text (checked_number slot)) }
{
    match SlotNumber::try_from(slot) {
        Ok(slot) => {
            let SlotStart { block, byte, bit } = frame::slot_start(slot);
            format!(in alloc; "data block {block}, byte {byte}, bit {bit}")
        }
        Err(cause) => refused(alloc, cause),
    }
}

// The type of the block before the last of so many. With the count beside, as `packet::write` answers it: a slice cut there would be read at
// the same number.
fn end_type(blocks: &[Block], count: usize) -> u8
    requires least { 2 ≤ count }
    requires most { count ≤ length blocks.now }
    ensures { result ≡ end_type_text blocks.now count }
{
    blocks[count - 2].bytes[0]
}

// How many blocks were made, and the type of the end.
fn packet_made(alloc: Global, count: usize, end: u8) -> Result<String, AllocError>
    ensures { IfOk result (λ t. string_bytes t ≡ made_text count end) }
{
    let end = hex(alloc, &[end])?;
    format!(in alloc; "{count} blocks, end {end}")
}

/// The blocks that `packet::write` makes: how many, and the type of the end.
pub fn packet_text(alloc: Global, packet: &[u8]) -> Result<String, AllocError>
    ensures { IfOk result (λ t. string_bytes t ≡ written_packet packet.now) }
{
    let mut blocks = [Block::idle(); PACKET_BLOCKS];
    match packet::write(packet, &mut blocks) {
        Ok(count) => packet_made(alloc, count, end_type(&blocks, count)),
        Err(cause) => refused(alloc, cause),
    }
}

/// The block at a place, counted from 0, among those that `message::write` makes.
pub fn message_text(
    alloc: Global,
    kind: Kind,
    values: &[u8],
    place: usize,
) -> Result<String, AllocError>
    ensures { IfOk result (λ t. string_bytes t ≡ written_message kind values.now place) }
{
    let mut blocks = [Block::idle(); MESSAGE_BLOCKS];
    match message::write(kind, values, &mut blocks) {
        Ok(count) if place < count => block_text(alloc, &blocks[place]),
        Ok(_) => String::from_str(alloc, "no block"),
        Err(cause) => refused(alloc, cause),
    }
}

/// The 7-bit remainder of a field of bits, in binary.
pub fn remainder_text(
    alloc: Global,
    bytes: &[u8],
    from: usize,
    to: usize,
) -> Result<String, AllocError>
    ensures { IfOk result (λ t. string_bytes t ≡ seven_digits (remainder 7 0xB7 (field bytes.now from to))) }
{
    let n = Generator::degree_seven().remainder(bytes, from, to);
    format!(in alloc; "{n:07b}")
}
