//! The program `packets`: carries the packets of its input lines through a tape that all clients share, and prints each as it comes out.
//! First every packet is put into the tape, pair by pair; then, line by line again, it is taken out and read back.
//! Main promise: what becomes of one line when it is stored (`store_line`) and when it is carried (`carry_line`). That `main` does so with
//! each line of the input, in order, is tested.
#![tactic(auto)]

ghost use Rattle.std.specs.Prelude.{◌≤◌, IfErr, IfOk, length, take};
ghost use Rattle.packet_text.specs.Lines.{packet_line_form};
ghost use Rattle.packets.specs.Carried.{CarriesLine, LineRead, LineRefused, StoresLine};

use block::Block;
use numbers::ClientNumber;
use packet_inlet::{PacketReader, put_packet};
use port::{Inlet, Outlet};
use refusal::Refusal;
use std::alloc::{AllocError, AllocFailed, Global};
use std::io;
use std::io::{ErrorKind, Read, Write};
use tape::{TaggedBlock, Tape};

// One byte more than the longest input, so that a longer one is seen to be too long.
const INPUT: usize = 32769;

// Bytes of the longest packet that an input can write.
const BYTES: usize = INPUT / 2;

// Places of the tape.
const PLACES: usize = 64;

// Places that a packet's blocks take at most: 253 blocks and the idle that makes them even.
const BLOCKS: usize = 254;

// Bytes of the longest line that is printed, of a packet of 2,000 bytes.
const LINE: usize = packet_report::ROOM + 4000;

#[derive(Debug, Drop)]
enum Failure {
    Io(io::Error),
    Memory,
    InputTooLong,
    LineTooLong,
}

impl From<io::Error> for Failure {
    ghost use Rattle.std.specs.Prelude.{◌≡◌};
    ghost use Rattle.packets.specs.declared.Failure.TheVariants.{Io};

    ghost from_gives = { λ error failure. failure ≡ Io error };

    fn from(error: io::Error) -> Failure {
        Failure::Io(error)
    }
}

impl From<AllocError> for Failure {
    ghost use Rattle.std.specs.Prelude.{◌≡◌};
    ghost use Rattle.packets.specs.declared.Failure.TheVariants.{Memory};

    ghost from_gives = { λ _ failure. failure ≡ Memory };

    fn from(_error: AllocError) -> Failure {
        Failure::Memory
    }
}

impl<T: Drop> From<AllocFailed<T>> for Failure {
    ghost use Rattle.std.specs.Prelude.{◌≡◌};
    ghost use Rattle.packets.specs.declared.Failure.TheVariants.{Memory};

    ghost from_gives = { λ _ failure. failure ≡ Memory };

    fn from(_error: AllocFailed<T>) -> Failure {
        Failure::Memory
    }
}

// Reads into the places until the input ends or they are full, and answers how many bytes were read. A read that a signal interrupts is
// tried again; the reads are counted up to a number that no run reaches, since each function must end. Not by the library's `copy`, whose
// buffer would take 8 KiB of stack, nor by `read_to_end`, which takes heap memory.
fn fill<R: Read>(input: &mut R, places: &mut [u8]) -> io::Result<usize>
    ensures { IfOk result (λ n. n ≤ length places.old) }
{
    let mut n = 0;
    for _ in 0..u64::MAX {
        if n == places.len() {
            break;
        }
        match input.read(&mut places[n..]) {
            Ok(0) => break,
            Ok(got) => n += got,
            Err(error) if error.kind() == ErrorKind::Interrupted => {}
            Err(error) => return Err(error),
        }
    }
    Ok(n)
}

// A line of the input, and how many blocks of its packet are in the store, or why it is refused.
#[derive(Clone, Copy)]
struct Stored<'a> {
    line: &'a [u8],
    blocks: Result<usize, Refusal>,
}

// Reads the packet of a line into the bytes; answers its client and its length. The bytes are an array with a length beside it, as
// the packet that is read back in `carry_line` is: both readers write into lent places. A `Vec` would be filled with as many zeros first,
// and cut off behind; and each line could then run out of memory.
fn read_packet(line: &[u8], bytes: &mut [u8; BYTES]) -> Result<(ClientNumber, usize), Refusal>
    ensures read { IfOk result (λ p. LineRead (packet_line_form line.now) p.0 (take p.1 bytes.new)) }
    ensures within { IfOk result (λ p. p.1 ≤ length bytes.new) }
    ensures refused { IfErr result (LineRefused (packet_line_form line.now)) }
{
    let read = packet_text::read_line(line, bytes)?;
    let client = ClientNumber::try_from(read.client)?;
    Ok((client, read.length))
}

// Puts the packet of a line into the store, and answers how many blocks it has.
fn store_line<O: Outlet>(line: &[u8], outlet: &mut O) -> Result<usize, Refusal>
    ensures { StoresLine (packet_line_form line.now) result (O.holding outlet.old) (O.holding outlet.new) }
{
    let mut bytes = [0; BYTES];
    let (client, length) = read_packet(line, &mut bytes)?;
    put_packet(outlet, client, &bytes[0..length])
}

// Takes the packet of a line out of the store again, and writes what is printed of it.
fn carry_line<I: Inlet>(stored: Stored<'_>, inlet: &mut I, out: &mut [u8]) -> Result<usize, Refusal>
    ensures { CarriesLine (packet_line_form stored.entry.line.now) stored.entry.blocks (I.waiting inlet.old) (I.waiting inlet.new) result out.old out.new }
{
    let count = stored.blocks?;
    let (client, length) = read_packet(stored.line, &mut [0; BYTES])?;
    let mut blocks = [Block::idle(); BLOCKS];
    let places = count.min(BLOCKS - 1);
    let mut back = [0; 2000];
    let mut reader = PacketReader::new(client, &mut blocks[0..places + places % 2]);
    let (read, _) = reader.take_packet(inlet, &mut back)?;
    packet_report::carried_line(client, length, count, &back[0..read], out)
}

// Puts the packets of all lines into the store, and answers for each line how many blocks it has, or why it is refused.
fn store_all<O: Outlet>(
    text: &[u8],
    outlet: &mut O,
    alloc: Global,
) -> Result<Vec<Result<usize, Refusal>>, Failure> {
    let mut stored = Vec::new(alloc);
    for line in text.split_inclusive(|byte| *byte == b'\n') {
        stored.push(store_line(line, outlet))?;
    }
    Ok(stored)
}

fn main(rt: HostRuntime) -> Result<(), Failure> {
    let mut input = [0u8; INPUT];
    let n = fill(&mut rt.stdin(), &mut input)?;
    let input = &input[..n];
    if input.len() == INPUT {
        return Err(Failure::InputTooLong);
    }
    let mut places = [TaggedBlock::UNUSED; PLACES];
    let mut tape = Tape::new(&mut places);
    let stored = store_all(input, &mut tape, rt.alloc())?;
    let lines = input.split_inclusive(|byte| *byte == b'\n');
    for (index, (line, blocks)) in lines.zip(stored).enumerate() {
        let mut text = [0; LINE];
        let length = carry_line(Stored { line, blocks }, &mut tape, &mut text)
            .or_else(|cause| packet_report::refused_line(index + 1, cause, &mut text))
            .map_err(|_| Failure::LineTooLong)?;
        let text = text.get(0..length).ok_or(Failure::LineTooLong)?;
        rt.stdout().write_all(text)?;
    }
    Ok(())
}
