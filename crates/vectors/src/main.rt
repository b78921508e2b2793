//! The program `vectors`: computes worked values of the formats with the library, and prints each beside the value expected.
//! A line has the value's name, what is expected, what was computed, and `ok` or `differs`.
//! Main promise: none of its own; `vector_values` computes, `value_text` compares and writes, and `main` prints.
#![tactic(auto)]

use message::Kind;
use std::io;
use value_text::line;

// Client number, 0 for none, and frame number; and the seven bytes.
const OVERHEADS: [(&str, u16, u16, &str); 3] = [
    (
        "overhead of client 1 in frame 0",
        1,
        0,
        "00 00 08 00 00 00 C8",
    ),
    (
        "overhead of client 480 in frame 479",
        480,
        479,
        "00 78 70 1F 00 00 E8",
    ),
    (
        "overhead of no client in frame 0",
        0,
        0,
        "00 00 00 00 00 00 00",
    ),
];

// Seven bytes, and what they are read as; the last has one bit changed.
const READINGS: [(&str, [u8; 7], &str); 4] = [
    (
        "00 00 08 00 00 00 C8 read",
        [0x00, 0x00, 0x08, 0x00, 0x00, 0x00, 0xC8],
        "client number 1, frame number 0",
    ),
    (
        "00 78 70 1F 00 00 E8 read",
        [0x00, 0x78, 0x70, 0x1F, 0x00, 0x00, 0xE8],
        "client number 480, frame number 479",
    ),
    (
        "00 00 00 00 00 00 00 read",
        [0; 7],
        "client number 0, frame number 0",
    ),
    (
        "00 00 08 01 00 00 C8 read",
        [0x00, 0x00, 0x08, 0x01, 0x00, 0x00, 0xC8],
        "wrong CRC",
    ),
];

// Where slots begin.
const STARTS: [(&str, u16, &str); 2] = [
    ("start of slot 2", 2, "data block 3, byte 7, bit 4"),
    ("start of slot 480", 480, "data block 989, byte 6, bit 4"),
];

// The value bytes of the two 1DM messages of ITU-T G.8312, Appendix II, with zeros for the 12 bits that the writer fills in;
// and the five blocks of each.
const FIRST_SET: [u8; 10] = [0x37, 0x9A, 0x05, 0x51, 0x91, 0x52, 0x35, 0x98, 0x00, 0x00];

const FIRST_BLOCKS: [(&str, &str); 5] = [
    ("1DM, first set, block 1", "10 4B D5 37 9A 0C 00 00 00"),
    ("1DM, first set, block 2", "10 4B D4 05 51 0C 00 00 00"),
    ("1DM, first set, block 3", "10 4B D4 91 52 0C 00 00 00"),
    ("1DM, first set, block 4", "10 4B D4 35 98 0C 00 00 00"),
    ("1DM, first set, block 5", "10 4B D6 E0 95 0C 00 00 00"),
];

const SECOND_SET: [u8; 10] = [0x35, 0x98, 0x14, 0x75, 0x91, 0x50, 0x35, 0x98, 0x00, 0x00];

const SECOND_BLOCKS: [(&str, &str); 5] = [
    ("1DM, second set, block 1", "10 4B D5 35 98 0C 00 00 00"),
    ("1DM, second set, block 2", "10 4B D4 14 75 0C 00 00 00"),
    ("1DM, second set, block 3", "10 4B D4 91 50 0C 00 00 00"),
    ("1DM, second set, block 4", "10 4B D4 35 98 0C 00 00 00"),
    ("1DM, second set, block 5", "10 4B D6 50 44 0C 00 00 00"),
];

// Prints the line of one value.
fn show(rt: &HostRuntime, name: &str, expected: &str, computed: String) -> io::Result<()> {
    rt.println(line(rt.alloc(), name, expected, computed.as_str())?)
}

fn overheads(rt: &HostRuntime) -> io::Result<()> {
    for (name, client, frame, expected) in OVERHEADS {
        let computed = vector_values::overhead_written(rt.alloc(), client, frame)?;
        show(rt, name, expected, computed)?;
    }
    for (name, bytes, expected) in READINGS {
        let computed = vector_values::overhead_read(rt.alloc(), &bytes)?;
        show(rt, name, expected, computed)?;
    }
    Ok(())
}

fn starts(rt: &HostRuntime) -> io::Result<()> {
    for (name, slot, expected) in STARTS {
        let computed = vector_values::slot_text(rt.alloc(), slot)?;
        show(rt, name, expected, computed)?;
    }
    Ok(())
}

fn packet(rt: &HostRuntime, name: &str, packet: &[u8], expected: &str) -> io::Result<()> {
    let computed = vector_values::packet_text(rt.alloc(), packet)?;
    show(rt, name, expected, computed)
}

fn delay_message(
    rt: &HostRuntime,
    values: &[u8; 10],
    blocks: &[(&str, &str); 5],
) -> io::Result<()> {
    for (i, (name, expected)) in blocks.iter().enumerate() {
        let computed = vector_values::message_text(rt.alloc(), Kind::OneDm, values, i)?;
        show(rt, name, expected, computed)?;
    }
    Ok(())
}

fn main(rt: HostRuntime) -> io::Result<()> {
    overheads(&rt)?;
    starts(&rt)?;
    packet(&rt, "packet of 63 bytes", &[0; 63], "refused with 6")?;
    packet(&rt, "packet of 64 bytes", &[0; 64], "11 blocks, end 87")?;
    packet(&rt, "packet of 2001 bytes", &[0; 2001], "refused with 6")?;
    let signal = vector_values::message_text(rt.alloc(), Kind::Cs, &[0x03, 0x00], 0)?;
    show(
        &rt,
        "CS with payload type 11",
        "10 4B DB 03 1E 0C 00 00 00",
        signal,
    )?;
    delay_message(&rt, &FIRST_SET, &FIRST_BLOCKS)?;
    delay_message(&rt, &SECOND_SET, &SECOND_BLOCKS)?;
    // ITU-T G.8312, Appendix IV: the field is 101 and 36 zeros
    let remainder = vector_values::remainder_text(rt.alloc(), &[0x05, 0, 0, 0, 0], 0, 39)?;
    show(&rt, "CRC-7 of 101 and 36 zeros", "0101011", remainder)
}
