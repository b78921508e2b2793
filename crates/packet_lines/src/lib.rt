//! The lines of packets that a sender is fed from, read into its clients' queues; the first line that is not taken decides.
//! A line is not taken where it has not the form, its client is out of range, its packet has no lawful length, or the client has no
//! slot, tested in this order.
//! Main promise: where every line is taken, just the blocks of their packets wait, each client's in the order of the lines.
#![tactic(auto)]

ghost use Rattle.std.specs.Prelude.{◌≡◌, ◌≤◌, length, take, Some, None, Ok, Err, IfOk, IfErr, MatchResult, OnOk};
ghost use Rattle.calendar.specs.Entries.{entries_of};
ghost use Rattle.client_queues.specs.Waiting.{waiting_in};
ghost use Rattle.packet_lines.specs.Lines.{text_lines};
ghost use Rattle.packet_lines.specs.Texts.{bad_text, error_text};
ghost use Rattle.packet_lines.specs.Reading.{IsReason, bad_or, blocks_brought, first_bad, joined_lists, lists_of, packet_of};

use calendar::Calendar;
use client_queues::ClientQueues;
use form::cut_line;
use numbers::ClientNumber;
use packet::is_packet_length;
use refusal::Refusal;
use std::alloc::{AllocError, Global};
use std::fmt;

/// Why a line is not taken.
#[derive(Clone, Copy, Debug, PartialEq, Eq)]
pub enum LineError {
    /// It is no line of a packet (`FormBroken`), its client is out of range (`OutOfRange`), or its packet has no lawful length
    /// (`PacketLength`).
    Refused(Refusal),
    /// The client, which is in range, has no slot in the calendar.
    NoSlot(u16),
}

/// A line that is not taken.
#[derive(Clone, Copy, Debug, PartialEq, Eq)]
pub struct BadLine {
    /// Why it is not.
    pub error: LineError,
    /// Which line of the text it is, counted from 1.
    pub line: usize,
}

/// Why a text is not read.
#[derive(Clone, Copy, Debug, PartialEq, Eq)]
pub enum ReadError {
    /// A line is not taken.
    Line(BadLine),
    /// There is no memory for the packets.
    Memory,
}

impl From<Refusal> for LineError {
    ghost use Rattle.std.specs.Prelude.{◌≡◌};
    ghost use Rattle.packet_lines.specs.declared.LineError.TheVariants.{Refused};

    ghost from_gives = { λ cause error. error ≡ Refused cause };

    fn from(cause: Refusal) -> LineError {
        LineError::Refused(cause)
    }
}

impl From<AllocError> for ReadError {
    ghost use Rattle.std.specs.Prelude.{◌≡◌};
    ghost use Rattle.packet_lines.specs.declared.ReadError.TheVariants.{Memory};

    ghost from_gives = { λ _ error. error ≡ Memory };

    fn from(_error: AllocError) -> ReadError {
        ReadError::Memory
    }
}

impl fmt::Display for BadLine {
    ghost output = { λ bad. Some (bad_text bad) };

    fn fmt<W: fmt::Write>(&self, f: &mut fmt::Formatter<W>) -> fmt::Result {
        let line = self.line;
        match self.error {
            LineError::Refused(cause) => write!(f, "refused {} line {line}", cause.number()),
            LineError::NoSlot(client) => write!(f, "no slot for client {client}, line {line}"),
        }
    }
}

impl fmt::Display for ReadError {
    ghost output = { λ error. Some (error_text error) };

    fn fmt<W: fmt::Write>(&self, f: &mut fmt::Formatter<W>) -> fmt::Result {
        match self {
            ReadError::Line(bad) => write!(f, "{bad}"),
            ReadError::Memory => write!(f, "no memory for the packets"),
        }
    }
}

// The client of a line and the length of its packet, whose bytes go to the front of the output.
fn read_packet(
    line: &[u8],
    calendar: &Calendar,
    out: &mut [u8],
) -> Result<(ClientNumber, usize), LineError>
    requires { length line.now ≤ length out.old }
    ensures within { IfOk result (λ p. p.1 ≤ length out.new) }
    ensures packet { IfOk result (λ p. packet_of (entries_of calendar.now) line.now ≡ Ok (p.0, take p.1 out.new)) }
    ensures error { IfErr result (λ e. packet_of (entries_of calendar.now) line.now ≡ Err e) }
{
    let read = packet_text::read_line(line, out)?;
    let client = ClientNumber::try_from(read.client)?;
    if !is_packet_length(read.length) {
        return Err(LineError::Refused(Refusal::PacketLength));
    }
    if calendar.share(client).0 == 0 {
        return Err(LineError::NoSlot(read.client));
    }
    Ok((client, read.length))
}

// Puts the packet of the line of this number behind those that wait for its client. Where the line is not taken, or memory is
// short, what waits is as before.
fn add_line(
    queues: &mut ClientQueues,
    calendar: &Calendar,
    line: &[u8],
    number: usize,
    alloc: Global,
) -> Result<(), ReadError>
    ensures taken { OnOk result (bad_or (packet_of (entries_of calendar.now) line.now) number None ≡ None) }
    ensures lists { OnOk result (waiting_in queues.new ≡ joined_lists (waiting_in queues.old) (blocks_brought (packet_of (entries_of calendar.now) line.now))) }
    ensures error { IfErr result (IsReason (bad_or (packet_of (entries_of calendar.now) line.now) number None)) }
{
    let mut bytes = vec![in alloc; 0; line.len()]?;
    match read_packet(line, calendar, &mut bytes) {
        // the length is that of a packet, so that memory alone can be missing
        Ok((client, length)) => queues
            .add(client, &bytes[..length])
            .map_err(|_| ReadError::Memory),
        Err(error) => Err(ReadError::Line(BadLine {
            error,
            line: number,
        })),
    }
}

/// Reads all lines of a text into new queues.
pub fn read(alloc: Global, text: &[u8], calendar: &Calendar) -> Result<ClientQueues, ReadError>
    ensures taken { OnOk result (first_bad (entries_of calendar.now) 1 (text_lines text.now) ≡ None) }
    ensures lists { IfOk result (λ queues. waiting_in queues ≡ lists_of (entries_of calendar.now) (text_lines text.now)) }
    ensures error { IfErr result (IsReason (first_bad (entries_of calendar.now) 1 (text_lines text.now))) }
{
    let mut queues = ClientQueues::new(alloc)?;
    let mut rest = text;
    let mut number = 0;
    while !rest.is_empty() {
        let (line, behind) = cut_line(rest);
        number += 1;
        add_line(&mut queues, calendar, line, number, alloc)?;
        rest = behind;
    }
    Ok(queues)
}

#[cfg(test)]
mod tests {
    use super::*;
    use numbers::SlotNumber;
    use port::Inlet;
    use std::test::Fail;

    // Sixty-four bytes as digits.
    const SIXTY_FOUR: &str =
        "000102030405060708090a0b0c0d0e0f101112131415161718191a1b1c1d1e1f202122232425262728292a2b2c2d2e2f303132333435363738393a3b3c3d3e3f";

    // Client 7 has slot 1, client 480 slot 480.
    fn calendar() -> Result<Calendar, Refusal> {
        let mut calendar = Calendar::empty();
        calendar.assign(SlotNumber::try_from(1)?, ClientNumber::try_from(7)?);
        calendar.assign(SlotNumber::try_from(480)?, ClientNumber::try_from(480)?);
        Ok(calendar)
    }

    // Why a text is not read, as a line's error and number.
    fn bad_line(
        alloc: Global,
        text: &str,
        calendar: &Calendar,
    ) -> Result<(LineError, usize), Fail> {
        match read(alloc, text.as_bytes(), calendar) {
            Ok(_) => Err(Fail::from("read")),
            Err(ReadError::Memory) => Err(Fail::from("no memory")),
            Err(ReadError::Line(bad)) => Ok((bad.error, bad.line)),
        }
    }

    #[test]
    fn bad_lines(rt: HostRuntime) -> Result<(), Fail> {
        let calendar = calendar()?;
        let first = calendar.client(SlotNumber::try_from(1)?);
        assert_eq!(rt; first, Some(ClientNumber::try_from(7)?));
        let form = LineError::Refused(Refusal::FormBroken);
        let range = LineError::Refused(Refusal::OutOfRange);
        let length = LineError::Refused(Refusal::PacketLength);
        let table = [
            ("\n", form),
            ("7 00\n", length),
            ("0 00\n", range),
            ("481 00\n", range),
            ("1000 00\n", form),
            ("7 0\n", form),
            ("7 0A\n", form),
            ("7 00\r\n", form),
            ("7 00", form),
            ("8 00\n", length),
        ];
        for (text, error) in table {
            assert_eq!(rt; bad_line(rt.alloc(), text, &calendar)?, (error, 1));
            // the same behind a good line
            let text = format!(in rt.alloc(); "7 {SIXTY_FOUR}\n{text}")?;
            assert_eq!(rt; bad_line(rt.alloc(), &text, &calendar)?, (error, 2));
        }
        let text = format!(in rt.alloc(); "7 {SIXTY_FOUR}\n8 {SIXTY_FOUR}\n0 00\n")?;
        assert_eq!(rt;
            bad_line(rt.alloc(), &text, &calendar)?,
            (LineError::NoSlot(8), 2)
        );
        Ok(())
    }

    #[test]
    fn packets(rt: HostRuntime) -> Result<(), Fail> {
        let calendar = calendar()?;
        let text = format!(in rt.alloc();
            "480 {SIXTY_FOUR}\n7 {SIXTY_FOUR}40\n480 {SIXTY_FOUR}\n"
        )?;
        let read = read(rt.alloc(), text.as_bytes(), &calendar);
        let Ok(mut queues) = read else {
            return Err(Fail::from("not read"));
        };
        assert_eq!(rt; queues.len(), 33);
        let client = ClientNumber::try_from(7)?;
        for _ in 0..9 {
            assert!(rt; queues.next(client).is_some());
        }
        let end = queues.next(client).ok_or("no end")?;
        assert_eq!(rt; (end.bytes[0], end.bytes[1], end.bytes[2]), (0x99, 0x40, 0));
        Ok(())
    }
}
