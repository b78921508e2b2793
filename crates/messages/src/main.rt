//! Writes a path message of each kind, gives its blocks to a collector, whole, damaged and woven into one another, and answers a question:
//! a sender sends the response, and its blocks go to the collector too.
//! It prints each block with what is reported of it: the faults P1 to P3 in their order, and the kind of a message that it makes whole.
//! Main promise: none of its own; the work is that of the crates `message`, `collector` and `sender`.
#![tactic(auto)]

use block::Block;
use calendar::Calendar;
use collector::Collector;
use message::{Kind, Mark, basic, read, write};
use sender::Sender;
use std::io;
use tape::Tape;
use value_text::HexBytes;

const CV: [u8; 34] = *b"Dohimpas path 1 trail identifier\0\0";

const FIRST_TIME: [u8; 10] = [0x37, 0x9A, 0x05, 0x51, 0x91, 0x52, 0x35, 0x98, 0, 0];

const SECOND_TIME: [u8; 10] = [0x35, 0x98, 0x14, 0x75, 0x91, 0x50, 0x35, 0x98, 0, 0];

// As many blocks as a sender sends in one round of 64 low priority opportunities: 128 cycles of 33 frames, of 992 blocks each, with 32 blocks
// between them. The next block of a response that is left goes within them.
const SENDS: u32 = 128 * (33 * 992 + 32);

// The blocks of a message, and idles behind them, since `write` takes lent places; `give` ends at the first block that is no message.
fn made(kind: Kind, values: &[u8]) -> [Block; 17] {
    let mut blocks = [Block::idle(); 17];
    // never refused: the values are lawful, and 17 places take every message; the output stored shows it
    let _ = write(kind, values, &mut blocks);
    blocks
}

// Gives the blocks up to the first that is no message to the collector.
fn give(
    rt: &impl Print,
    collector: &mut Collector,
    title: &str,
    blocks: &[Block; 17],
) -> io::Result<()> {
    println!(rt; "{title}")?;
    for block in blocks {
        let Some(said) = read(block) else {
            break;
        };
        let report = collector.take(said);
        let bytes = HexBytes {
            bytes: &block.bytes,
        };
        print!(rt; "{bytes}")?;
        for fault in report.faults().into_iter().flatten() {
            print!(rt; " {fault}")?;
        }
        if let Ok(Some(kind)) = report.found {
            print!(rt; " whole {kind}")?;
        }
        println!(rt; "")?;
    }
    Ok(())
}

// A message of each kind.
fn give_whole(rt: &impl Print, collector: &mut Collector) -> io::Result<()> {
    let mut first = [Block::idle(); 17];
    first[0] = basic(Mark::Start);
    first[1] = basic(Mark::End);
    give(rt, collector, "basic messages", &first)?;
    give(
        rt,
        collector,
        "protection",
        &made(Kind::Aps, &[0x12, 0x34, 0, 0]),
    )?;
    give(rt, collector, "verification", &made(Kind::Cv, &CV))?;
    give(
        rt,
        collector,
        "one-way delay",
        &made(Kind::OneDm, &FIRST_TIME),
    )?;
    give(rt, collector, "client signal", &made(Kind::Cs, &[3, 0]))
}

// One-way delay messages that are damaged on the way.
fn give_damaged(rt: &impl Print, collector: &mut Collector) -> io::Result<()> {
    let whole = made(Kind::OneDm, &FIRST_TIME);
    let mut cut = whole;
    cut[2] = Block::idle();
    give(rt, collector, "begun", &cut)?;
    give(rt, collector, "begun anew", &whole)?;
    let mut unmarked = whole;
    unmarked[4].bytes[1] = 0xD4;
    give(rt, collector, "end mark missing", &unmarked)?;
    let mut early = whole;
    early[1].bytes[1] = 0xD6;
    give(rt, collector, "end mark early", &early)?;
    let mut changed = whole;
    changed[2].bytes[2] = 0x90;
    give(rt, collector, "value changed", &changed)?;
    let mut unknown = whole;
    unknown[3].bytes[1] = 0x84;
    give(rt, collector, "unknown kind", &unknown)
}

// Two messages and a basic one, block by block between one another.
fn give_woven(rt: &impl Print, collector: &mut Collector) -> io::Result<()> {
    let delay = made(Kind::OneDm, &SECOND_TIME);
    let protection = made(Kind::Aps, &[0x12, 0x34, 0, 0]);
    let mut woven = [Block::idle(); 17];
    woven[0] = delay[0];
    woven[1] = protection[0];
    woven[2] = delay[1];
    woven[3] = basic(Mark::Start);
    woven[4] = delay[2];
    woven[5] = delay[3];
    woven[6] = protection[1];
    woven[7] = delay[4];
    give(rt, collector, "woven", &woven)
}

// The question that waits, if one does, is answered by the sender or, where that refuses, declined.
fn answer(rt: &impl Print, collector: &mut Collector, sender: &mut Sender) -> io::Result<()> {
    let Some(question) = collector.collect() else {
        return println!(rt; "no question");
    };
    match sender.answer(
        question,
        [1, 2, 3, 4, 5, 6, 7, 8],
        [9, 10, 11, 12, 13, 14, 15, 16],
    ) {
        Ok(()) => println!(rt; "answered"),
        Err((cause, question)) => {
            question.decline();
            let number = cause.number();
            println!(rt; "refused {number}, declined")
        }
    }
}

// The next block of a response that the sender sends, and an idle if none goes.
fn next_of_response(sender: &mut Sender, nothing: &mut Tape) -> Block {
    for _ in 0..SENDS {
        let block = sender.send(nothing);
        if let Some(said) = read(&block)
            && said.kind == Some(Kind::TwoDmr)
        {
            return block;
        }
    }
    Block::idle()
}

// The blocks of the response as the sender sends them, with nothing to send for clients, and idles behind them.
fn response(sender: &mut Sender) -> [Block; 17] {
    let mut nothing = Tape::new(&mut []);
    let mut blocks = [Block::idle(); 17];
    for place in blocks.iter_mut().take(Kind::TwoDmr.blocks()) {
        *place = next_of_response(sender, &mut nothing);
    }
    blocks
}

fn ask(rt: &impl Print, collector: &mut Collector) -> io::Result<()> {
    let mut sender = Sender::new(Calendar::empty(), [0; 32]);
    give(rt, collector, "question", &made(Kind::TwoDmm, &FIRST_TIME))?;
    give(
        rt,
        collector,
        "question in its place",
        &made(Kind::TwoDmm, &SECOND_TIME),
    )?;
    answer(rt, collector, &mut sender)?;
    answer(rt, collector, &mut sender)?;
    give(
        rt,
        collector,
        "another question",
        &made(Kind::TwoDmm, &FIRST_TIME),
    )?;
    answer(rt, collector, &mut sender)?;
    give(rt, collector, "response", &response(&mut sender))
}

fn main(rt: HostRuntime) -> io::Result<()> {
    let mut collector = Collector::new();
    give_whole(&rt, &mut collector)?;
    give_damaged(&rt, &mut collector)?;
    give_woven(&rt, &mut collector)?;
    ask(&rt, &mut collector)
}
