//! What is printed of packets, as bytes in memory that the caller lends: a line for a packet carried, and one for a refusal.
//! Numbers are in decimal, and a packet's bytes in hexadecimal, two digits a byte in small letters.
//! Main promise: the bytes written are those that the definition `carried_text`, or `refused_line_text`, gives; all others stay.
#![tactic(auto)]

ghost use Rattle.std.specs.Prelude.{◌≡◌, ◌+◌, ◌*◌, ◌<◌, ◌≤◌, ◌++◌, length, codes, decimal, nat_le};
ghost use Rattle.numbers.specs.Range.{IsOneTo480};
ghost use Rattle.packet.specs.Answers.{leaves};
ghost use Rattle.packet_text.specs.Hex.{hex_digit, hex_text};
ghost use Rattle.packet_report.specs.Texts.{carried_text, counts_text, print_answer, refused_line_text, report_room};
ghost use Rattle.text_out.specs.Wrote.{Writes, Wrote};

use numbers::ClientNumber;
use refusal::Refusal;
use text_out::TextOut;

/// Places that a printed line takes at most, besides two for each byte of a packet in it.
pub const ROOM: usize = 128;

// The hexadecimal digit of a number below 16.
fn hex_digit(value: u8) -> u8
    requires { value < 16 }
    ensures { result ≡ hex_digit value }
{
    if value < 10 {
        b'0' + value
    } else {
        b'a' + (value - 10)
    }
}

// Writes bytes in hexadecimal from place `at` on, and answers the place behind them. By place, two digits a byte: `TextOut::put` for each
// byte takes ten times as long and more, and the kit's `hex::encode_to_slice` would answer a `Result` for what cannot fail.
fn put_hex(out: &mut [u8], at: usize, bytes: &[u8]) -> usize
    requires { at + 2 * length bytes.now ≤ length out.old }
    ensures { Wrote at (hex_text bytes.now) out.old out.new result }
{
    let mut end = at;
    for byte in bytes {
        out[end] = hex_digit(*byte / 16);
        out[end + 1] = hex_digit(*byte % 16);
        end += 2;
    }
    end
}

// Writes a packet's client, bytes and blocks.
fn put_counts(text: &mut TextOut<'_>, client: ClientNumber, bytes: usize, blocks: usize)
    ensures wrote { Writes text.old text.new (counts_text client bytes blocks) }
    ensures range { IsOneTo480 client }
{
    text.put(b"client ");
    text.put_number(usize::from(client.number()), b": ");
    text.put_number(bytes, b" bytes, ");
    text.put_number(blocks, b" blocks, read back ");
}

// Writes what stands in front of the bytes that were read back, and answers how many places it takes.
fn put_front(
    out: &mut [u8],
    client: ClientNumber,
    bytes: usize,
    blocks: usize,
    back: usize,
) -> usize
    requires { 128 ≤ length out.old }
    ensures wrote { Wrote 0 (counts_text client bytes blocks ++ (decimal back ++ codes " bytes ")) out.old out.new result }
    ensures short { result < 128 }
{
    let mut text = TextOut::new(out);
    put_counts(&mut text, client, bytes, blocks);
    text.put_number(back, b" bytes ");
    text.finish()
}

// Are there places for a line with so many bytes in it?
fn has_room(bytes: usize, places: usize) -> bool
    ensures { result ≡ nat_le (report_room bytes) places }
{
    places >= ROOM && (places - ROOM) / 2 >= bytes
}

/// Writes the line of a packet that was carried and read back, and answers how many bytes it has; refused with `OutputTooShort`
/// where there are fewer than `ROOM` places and two for each byte read back.
pub fn carried_line(
    client: ClientNumber,
    bytes: usize,
    blocks: usize,
    back: &[u8],
    out: &mut [u8],
) -> Result<usize, Refusal>
    ensures answer { result ≡ print_answer (carried_text client bytes blocks back.now) (length back.now) (length out.old) }
    ensures output { out.new ≡ leaves result (carried_text client bytes blocks back.now) out.old }
{
    if !has_room(back.len(), out.len()) {
        return Err(Refusal::OutputTooShort);
    }
    let at = put_front(out, client, bytes, blocks, back.len());
    let end = put_hex(out, at, back);
    out[end] = b'\n';
    Ok(end + 1)
}

/// Writes the line of a refused line, and answers how many bytes it has; refused with `OutputTooShort` where there are fewer than
/// `ROOM` places.
pub fn refused_line(line: usize, cause: Refusal, out: &mut [u8]) -> Result<usize, Refusal>
    ensures answer { result ≡ print_answer (refused_line_text line cause) 0 (length out.old) }
    ensures output { out.new ≡ leaves result (refused_line_text line cause) out.old }
{
    if !has_room(0, out.len()) {
        return Err(Refusal::OutputTooShort);
    }
    let number = usize::from(cause.number());
    let mut text = TextOut::new(out);
    text.put(b"line ");
    text.put_number(line, b": refused ");
    text.put_number(number, b"\n");
    Ok(text.finish())
}
