//! Measures a sender: a million blocks, one a call, from a bank that is filled as they go, for 100 clients with four slots each.
//! Standard output has a checksum of the data blocks sent, standard error the time that a block took, in hundredths of a nanosecond, for the
//! first and the last tenth of them.
#![tactic(auto)]

use bank::Bank;
use block::{Block, Pair, Sync};
use calendar::Calendar;
use numbers::{ClientNumber, SlotNumber};
use port::Outlet;
use sender::Sender;
use std::hint::black_box;
use std::io;
use std::time::Instant;

// The clients, each with an area of the bank and four slots.
const CLIENTS: usize = 100;

// The blocks of an area.
const WIDTH: usize = 256;

// Rounds of a tenth, and the blocks that are sent in a round.
const ROUNDS: usize = 100;

const SENDS: usize = 1_000;

// The next of a sequence of numbers of many bits (xorshift).
fn next(x: u64) -> u64 {
    let a = x ^ x << 13;
    let b = a ^ a >> 7;
    b ^ b << 17
}

// A data block of a number's bits.
fn data(x: u64) -> Block {
    Block {
        sync: Sync::Data,
        bytes: x.to_le_bytes(),
    }
}

// Puts four pairs for each client, where they have places, and answers the number behind those that they were made of.
fn fill(bank: &mut Bank, start: u64) -> u64 {
    let mut x = start;
    for index in 0..CLIENTS {
        if let Some(client) = ClientNumber::from_index(index) {
            for _ in 0..4 {
                let first = next(x);
                x = next(first);
                let pair = Pair {
                    first: data(first),
                    second: data(x),
                };
                // a pair for which there are no places is left out
                let _ = bank.put(client, pair);
            }
        }
    }
    x
}

// The checksum with a block more; only data blocks count.
fn with_block(sum: u64, block: &Block) -> u64 {
    match block.sync {
        Sync::Data => sum.rotate_left(1) ^ u64::from_le_bytes(block.bytes),
        _ => sum,
    }
}

// Sends a tenth of the blocks. What goes in and comes out is the number that the next blocks are made of, and the checksum.
fn send_tenth(sender: &mut Sender, bank: &mut Bank, start: (u64, u64)) -> (u64, u64) {
    let (mut x, mut sum) = start;
    for _ in 0..ROUNDS {
        x = fill(bank, x);
        for _ in 0..SENDS {
            sum = with_block(sum, &black_box(sender.send(bank)));
        }
    }
    (x, sum)
}

// Client n has slots 4n - 3 to 4n.
fn four_slots_each() -> Calendar {
    let mut calendar = Calendar::empty();
    for index in 0..4 * CLIENTS {
        if let (Some(slot), Some(client)) = (
            SlotNumber::from_index(index),
            ClientNumber::from_index(index / 4),
        ) {
            calendar.assign(slot, client);
        }
    }
    calendar
}

fn main(rt: HostRuntime) -> io::Result<()> {
    let mut memory = [Block::idle(); CLIENTS * WIDTH];
    let mut bank = Bank::new(&mut memory, WIDTH);
    let mut sender = Sender::new(four_slots_each(), [0; 32]);
    let start = Instant::now(&rt)?;
    let mut state = send_tenth(&mut sender, &mut bank, (88172645463325252, 0));
    // of 100,000 blocks, in hundredths of a nanosecond
    let first = start.elapsed(&rt)?.as_nanos() / 1_000;
    for _ in 0..8 {
        state = send_tenth(&mut sender, &mut bank, state);
    }
    let start = Instant::now(&rt)?;
    state = send_tenth(&mut sender, &mut bank, state);
    let last = start.elapsed(&rt)?.as_nanos() / 1_000;
    println!(rt; "checksum {}", state.1)?;
    eprintln!(rt; "first {first}, last {last} hundredths of a nanosecond a block")
}
