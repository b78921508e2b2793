//! The program `pack`: sends the packets of its standard input over a path whose calendar a lease sheet gives, and writes the line on
//! standard output, a block a line of text.
//! Main promise: none of its own; `sheet` and `packet_lines` read, `transmission` sends, `block_text` writes a block, and `main` reads and
//! writes bytes.
#![tactic(auto)]

use anyhow::{Result, anyhow};
use calendar::Calendar;
use clap::error::ErrorKind;
use clap::{Arg, ArgAction, Command, value_parser};
use listing::REFUSAL_LEN;
use progress::{Goal, Report};
use refusal::SheetRefusal;
use std::alloc::{AllocError, Global};
use std::io::{BufWriter, Read, Write};
use std::process::ExitCode;
use std::rt::Files;
use std::{fs, io};
use transmission::Transmission;

// One byte more than the longest sheet, so that a longer one is seen to be too long.
const SHEET_ROOM: u64 = sheet::LONGEST as u64 + 1;

// Frames after which `--progress` tells how many have been sent: those of a multiframe.
const TOLD_AFTER: u64 = 480;

fn command<'a>(alloc: Global) -> Result<Command<'a>, AllocError> {
    let sheet = Arg::new(alloc, "SHEET")
        .required(true)
        .help("The file of the lease sheet");
    let frames = Arg::new(alloc, "FRAMES")
        .value_parser(value_parser!(u32).range(1..))
        .help(
            "How many frames to send; without it, a multiframe with nothing waiting, and then all packets",
        );
    let progress = Arg::new(alloc, "progress")
        .long("progress")
        .action(ArgAction::SetTrue)
        .help("Tell on standard error how many frames have been sent");
    Command::new(alloc, "pack")
        .version("1.0")
        .about("Sends the packets of standard input over a path, and writes the blocks of the line")
        .arg(sheet)?
        .arg(frames)?
        .arg(progress)
}

// What the command line asks for.
#[derive(Clone, Copy)]
struct Options<'a> {
    sheet: &'a str,
    goal: Goal,
    told: bool,
}

// The options that the words give; a number of frames with a sign is wrong use too.
fn parse<'a>(alloc: Global, words: &'a [String]) -> Result<Options<'a>, clap::Error> {
    let mut command = command(alloc)?;
    let matches = command.try_get_matches_from_mut(words)?;
    let frames = matches.get_str("FRAMES");
    if frames.is_some_and(|text| text.starts_with('+')) {
        return Err(command.error(ErrorKind::ValueValidation, "FRAMES has a sign")?);
    }
    Ok(Options {
        sheet: matches.get_str("SHEET").unwrap_or(""),
        goal: matches
            .get_one::<u32>("FRAMES")
            .map_or(Goal::AllSent, Goal::Frames),
        told: matches.get_flag("progress"),
    })
}

fn read_sheet<R: Files + AllocGlobal>(rt: &R, path: &str) -> io::Result<Vec<u8>> {
    let mut bytes = Vec::new(rt.alloc());
    fs::open(rt, path)?
        .take(SHEET_ROOM)
        .read_to_end(&mut bytes)?;
    Ok(bytes)
}

fn read_packets<R: Input + AllocGlobal>(rt: &R) -> io::Result<Vec<u8>> {
    let mut bytes = Vec::new(rt.alloc());
    rt.reader().read_to_end(&mut bytes)?;
    Ok(bytes)
}

// Tells a refused sheet as `slots` does.
fn tell_refusal(rt: &impl Print, refusal: SheetRefusal) -> io::Result<()> {
    let mut text = [0; REFUSAL_LEN];
    let len = listing::refusal_line(refusal.cause, refusal.line, &mut text);
    io::writer(rt).write_all(&text[..len])
}

fn tell(rt: &impl Eprint, report: Report) -> io::Result<()> {
    eprintln!(rt; "{report}")
}

// Writes the line to its last block.
fn write_line<R: Print + Eprint + AllocGlobal>(
    rt: &R,
    line: &mut Transmission,
    told: bool,
) -> io::Result<()> {
    let mut out = BufWriter::new(rt.alloc(), io::writer(rt))?;
    for _ in 0..u64::MAX {
        let Some(block) = line.next_block() else {
            break;
        };
        out.write_all(&block_text::write(block))?;
        let frames = line.progress().frames;
        if told && block.is_end() && frames % TOLD_AFTER == 0 {
            tell(rt, Report::FramesSent(frames))?;
        }
    }
    out.flush()
}

// Sends the packets of the input over a path with this calendar.
fn send<R: Input + Print + Eprint + AllocGlobal>(
    rt: &R,
    calendar: Calendar,
    options: Options<'_>,
) -> Result<ExitCode> {
    let input = read_packets(rt).map_err(|error| anyhow!("standard input: {error}"))?;
    let queues = match packet_lines::read(rt.alloc(), &input, &calendar) {
        Ok(queues) => queues,
        Err(error) => {
            eprintln!(rt; "{error}")?;
            return Ok(ExitCode::FAILURE);
        }
    };
    let mut line = Transmission::new(calendar, queues, options.goal);
    write_line(rt, &mut line, options.told).map_err(|error| anyhow!("standard output: {error}"))?;
    if options.told {
        tell(rt, Report::FramesSent(line.progress().frames))?;
    }
    if matches!(options.goal, Goal::Frames(_)) {
        tell(rt, Report::BlocksUnsent(line.unsent()))?;
    }
    Ok(ExitCode::SUCCESS)
}

fn run<R: Files + Input + Print + Eprint + AllocGlobal>(
    rt: &R,
    options: Options<'_>,
) -> Result<ExitCode> {
    let path = options.sheet;
    let sheet = read_sheet(rt, path).map_err(|error| anyhow!("{path}: {error}"))?;
    let mut calendar = Calendar::empty();
    match sheet::read(&sheet, &mut calendar) {
        Ok(()) => send(rt, calendar, options),
        Err(refusal) => {
            tell_refusal(rt, refusal)?;
            Ok(ExitCode::FAILURE)
        }
    }
}

fn main(rt: HostRuntime) -> Result<ExitCode> {
    let words: Vec<String> = std::env::args(&rt)?.collect(rt.alloc())?;
    match parse(rt.alloc(), words.as_slice()) {
        Ok(options) => run(&rt, options),
        Err(error) => {
            error.print(&rt)?;
            Ok(ExitCode::from(error.exit_code() as u8))
        }
    }
}
