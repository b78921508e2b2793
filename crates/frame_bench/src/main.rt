//! Measures frames: ten thousand made and stored as a whole, and ten thousand sent and taken one block a call.
//! Standard output has the number of frames taken and a checksum, standard error the time a block took, in hundredths of a nanosecond.
#![tactic(auto)]

ghost use Rattle.std.specs.Prelude.{◌≡◌, ◌++◌, drop, slice_get};
ghost use Rattle.frame.specs.Frames.{carried_by, frame_of};

use block::{Block, Class, Pair, Sync};
use frame::{OverheadBytes, assemble, take_apart};
use numbers::{ClientNumber, FrameNumber, SLOTS, SlotNumber};
use overhead::Overhead;
use payload::Payload;
use std::io;
use std::time::{Duration, Instant};
use under_way::incoming::Incoming;
use under_way::outgoing::Outgoing;

// The frames made, and those stored, sent and taken.
const ROUNDS: usize = 10_000;

// Each of these four is called, as a program calls a sender and a receiver.
#[inline(never)]
fn make(overhead: &OverheadBytes, payload: &Payload, blocks: &mut [Block; 992])
    ensures { blocks.new ≡ frame_of (overhead.now ++ payload.now) }
{
    assemble(overhead, payload, blocks);
}

#[inline(never)]
fn store(blocks: &[Block; 992], overhead: &mut OverheadBytes, payload: &mut Payload)
    ensures { overhead.new ++ payload.new ≡ carried_by blocks.now }
{
    take_apart(blocks, overhead, payload);
}

#[inline(never)]
fn send(outgoing: &mut Outgoing) -> Option<Block>
    ensures first { result ≡ slice_get outgoing.old.rest 0 }
    ensures rest { outgoing.new ≡ record outgoing.old { rest = drop 1 outgoing.old.rest } }
{
    outgoing.next()
}

// Answers whether the frame is whole with this block.
#[inline(never)]
fn take(incoming: &mut Incoming, block: &Block) -> bool {
    if let Sync::Data = block.sync {
        if incoming.grow(block).is_err() {
            incoming.clear();
        }
        return false;
    }
    match block.class() {
        Class::Start => incoming.begin(),
        Class::End(_) => {
            if incoming.finish(block).is_ok() {
                return true;
            }
            incoming.clear();
        }
        _ => incoming.clear(),
    }
    false
}

// The next of a sequence of numbers of many bits (xorshift).
fn next(x: u64) -> u64 {
    let a = x ^ x << 13;
    let b = a ^ a >> 7;
    b ^ b << 17
}

// A block of a number's bits.
fn block(x: u64) -> Block {
    Block {
        sync: Sync::from_bits((x >> 3 & 3) as u8),
        bytes: x.to_le_bytes(),
    }
}

fn sum(start: u64, bytes: &[u8]) -> u64 {
    bytes.iter().fold(
        start,
        |sum, b| sum.wrapping_mul(31).wrapping_add(u64::from(*b)),
    )
}

// Hundredths of a nanosecond for each of the blocks of one direction.
fn each(time: Duration) -> u128 {
    time.as_nanos() / 99_200
}

// Fills bytes with many bits, and answers the number behind them.
fn fill(bytes: &mut [u8], start: u64) -> u64 {
    let mut x = start;
    for byte in bytes.iter_mut() {
        x = next(x);
        *byte = (x & 255) as u8;
    }
    x
}

// Fills the slots with pairs of many bits.
fn fill_slots(outgoing: &mut Outgoing) {
    let mut x = 88172645463325252;
    for slot in SlotNumber::all() {
        let first = next(x);
        x = next(first);
        let pair = Pair {
            first: block(first),
            second: block(x),
        };
        let _ = outgoing.write_pair(slot, pair);
    }
}

fn make_rounds(overhead: &OverheadBytes, payload: &mut Payload, blocks: &mut [Block; 992]) {
    for round in 0..ROUNDS {
        payload[round % 7920] ^= blocks[round % 992].bytes[round % 8];
        make(overhead, payload, blocks);
    }
}

fn store_rounds(blocks: &mut [Block; 992], overhead: &mut OverheadBytes, payload: &mut Payload) {
    for round in 0..ROUNDS {
        blocks[round % 992].bytes[round % 8] ^= payload[round % 7920];
        store(blocks, overhead, payload);
    }
}

// The overhead of a round: of another client each time, and of none in the first round and in each 481st behind it.
fn overhead_of(round: usize, frame: FrameNumber) -> Overhead {
    Overhead {
        announced: ClientNumber::from_index((round % (SLOTS + 1) + SLOTS) % (SLOTS + 1)),
        frame,
    }
}

fn send_rounds(outgoing: &mut Outgoing, blocks: &mut [Block; 992]) {
    let mut frame = FrameNumber::first();
    for round in 0..ROUNDS {
        outgoing.begin(overhead_of(round, frame));
        frame = frame.next();
        for place in blocks.iter_mut() {
            // By parts: copied whole, a block that a call returned waits for the stores of its bytes.
            if let Some(block) = send(outgoing) {
                let Block { sync, bytes } = block;
                *place = Block { sync, bytes };
            }
        }
    }
}

fn take_rounds(blocks: &mut [Block; 992], incoming: &mut Incoming) -> (u64, u64) {
    let mut whole = 0u64;
    let mut s = 0u64;
    for round in 0..ROUNDS {
        blocks[1 + round % 990].bytes[round % 8] ^= (round & 255) as u8;
        for b in blocks.iter() {
            if take(incoming, b) {
                whole = whole.wrapping_add(1);
                s = s.wrapping_mul(31).wrapping_add(seen(incoming, round));
            }
        }
    }
    (whole, s)
}

// A byte of a whole frame's payload.
fn seen(incoming: &Incoming, round: usize) -> u64 {
    match incoming.whole() {
        Some(frame) => u64::from(frame.payload()[round % 7920]),
        None => 0,
    }
}

fn main(rt: HostRuntime) -> io::Result<()> {
    let mut overhead = [0u8; 7];
    let mut payload = [0u8; 7920];
    let x = fill(&mut overhead, 88172645463325252);
    fill(&mut payload, x);
    let mut blocks = [Block::start(); 992];
    let start = Instant::now(&rt)?;
    make_rounds(&overhead, &mut payload, &mut blocks);
    let made = each(start.elapsed(&rt)?);
    let mut s = sum(sum(0, &overhead), &payload);
    let start = Instant::now(&rt)?;
    store_rounds(&mut blocks, &mut overhead, &mut payload);
    let stored = each(start.elapsed(&rt)?);
    s = sum(sum(s, &overhead), &payload);
    let mut outgoing = Outgoing::new();
    fill_slots(&mut outgoing);
    let start = Instant::now(&rt)?;
    send_rounds(&mut outgoing, &mut blocks);
    let sent = each(start.elapsed(&rt)?);
    for b in &blocks {
        s = sum(s, &b.bytes);
    }
    let mut incoming = Incoming::new();
    let start = Instant::now(&rt)?;
    let (whole, t) = take_rounds(&mut blocks, &mut incoming);
    let taken = each(start.elapsed(&rt)?);
    s = s.wrapping_mul(31).wrapping_add(t);
    println!(rt; "{whole} frames, checksum {s}")?;
    eprintln!(rt;
        "make {made}, store {stored}, send {sent}, take {taken} hundredths of a nanosecond a block"
    )
}
