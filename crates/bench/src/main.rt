//! Measures packing and unpacking: ten thousand payloads each way, each a little other than the one before.
//! Standard output has the number of blocks moved and a checksum, standard error the time a block took, in hundredths of a nanosecond.
//! Main promise: `pack_rounds` leaves the payload of the pairs as they then are, `unpack_rounds` the pairs of the payload, and each answers
//! 9,600,000. That each round packs or unpacks is in no clause, and a body that did so once would meet them: the checksum, which the gate
//! compares, depends on the rounds.
#![tactic(auto)]

ghost use Rattle.std.specs.Prelude.{◌≡◌, ◌*◌, fold};
ghost use Rattle.bench.specs.Filled.{counted_block, next, pairs_from};
ghost use Rattle.bench.specs.Sums.{sum_with};
ghost use Rattle.numbers.specs.Range.{slots};
ghost use Rattle.payload.specs.Payloads.{pairs_of, payload_of};

use block::{Block, Pair, Sync};
use numbers::SLOTS;
use payload::{Payload, pack, unpack};
use std::io;
use std::time::{Duration, Instant};

// The payloads packed, and the payloads unpacked.
const ROUNDS: usize = 10_000;

// The next of a sequence of numbers of many bits (xorshift).
#[tactic(auto, unfolding(crate::specs::Filled::next))]
fn next(x: u64) -> u64
    ensures { result ≡ next x }
{
    let a = x ^ x << 13;
    let b = a ^ a >> 7;
    b ^ b << 17
}

// A block of a number's bits.
#[tactic(auto, using(crate::proofs::Filling::sync_is), unfolding(crate::specs::Filled::counted_block))]
fn block(x: u64) -> Block
    ensures { result ≡ counted_block x }
{
    Block {
        sync: Sync::from_bits((x >> 3 & 3) as u8),
        bytes: x.to_le_bytes(),
    }
}

// Pairs of many bits, the same at each run.
fn fill(pairs: &mut [Pair; SLOTS])
    ensures { pairs.new ≡ pairs_from 88172645463325252 slots }
{
    let mut x = 88172645463325252;
    for pair in pairs.iter_mut() {
        let first = next(x);
        x = next(first);
        *pair = Pair {
            first: block(first),
            second: block(x),
        };
    }
}

// Packs again and again, and answers the number of blocks that so many rounds move.
// This and `unpack_rounds` are two, since they differ in the byte changed and in the buffer made: one over a closure has only the count
// in common.
fn pack_rounds(pairs: &mut [Pair; SLOTS], payload: &mut Payload) -> u64
    ensures moved { result ≡ 9600000 }
    ensures packed { payload.new ≡ payload_of pairs.new }
{
    pack(pairs, payload);
    let mut moved = 960;
    // a count of rounds, here and in `unpack_rounds`: nothing is walked
    for round in 1..ROUNDS {
        pairs[round % SLOTS].first.bytes[0] ^= payload[round % 7920];
        pack(pairs, payload);
        moved += 960;
    }
    moved
}

// Unpacks again and again, and answers the number of blocks that so many rounds move.
fn unpack_rounds(payload: &mut Payload, pairs: &mut [Pair; SLOTS]) -> u64
    ensures moved { result ≡ 9600000 }
    ensures unpacked { pairs.new ≡ pairs_of payload.new }
{
    unpack(payload, pairs);
    let mut moved = 960;
    for round in 1..ROUNDS {
        payload[round % 7920] ^= pairs[round % SLOTS].second.bytes[7];
        unpack(payload, pairs);
        moved += 960;
    }
    moved
}

// A checksum of the payload, begun with another.
fn checksum(start: u64, payload: &Payload) -> u64
    ensures { result ≡ fold sum_with start payload.now }
{
    payload.iter().fold(
        start,
        |sum, b| sum.wrapping_mul(31).wrapping_add(u64::from(*b)),
    )
}

// Hundredths of a nanosecond for each of the blocks of one direction.
fn each(time: Duration) -> u128 {
    time.as_nanos() / 96_000
}

fn main(rt: HostRuntime) -> io::Result<()> {
    let mut pairs = [Pair {
        first: Block::idle(),
        second: Block::idle(),
    }; SLOTS];
    let mut payload = [0u8; 7920];
    fill(&mut pairs);
    let start = Instant::now(&rt)?;
    let packed = pack_rounds(&mut pairs, &mut payload);
    let pack_time = each(start.elapsed(&rt)?);
    let half = checksum(0, &payload);
    let again = Instant::now(&rt)?;
    let unpacked = unpack_rounds(&mut payload, &mut pairs);
    let unpack_time = each(again.elapsed(&rt)?);
    pack(&pairs, &mut payload);
    let sum = checksum(half, &payload);
    let moved = packed + unpacked;
    println!(rt; "{moved} blocks moved, checksum {sum}")?;
    eprintln!(rt; "pack {pack_time}, unpack {unpack_time} hundredths of a nanosecond a block")
}
