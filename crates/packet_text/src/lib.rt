//! Packets as lines of text: a text cut into its lines, and a line read as a client and a packet's bytes.
//! A line is the client's number in decimal, a blank, two hexadecimal digits in small letters for each byte, and a newline.
//! Main promise: a line is read as a client and bytes exactly if it is just these written out; any other is a broken form.
#![tactic(auto)]

ghost use Rattle.std.specs.Prelude.{◌≡◌, ◌<◌, true, length};
ghost use Rattle.form.specs.Reads.{Reads};
ghost use Rattle.packet.specs.Answers.{leaves};
ghost use Rattle.packet_text.specs.Hex.{all_hex, hex_bytes, hex_value, is_hex, is_hex_digit};
ghost use Rattle.packet_text.specs.Lines.{LinesRead, OnlyLinesRead, length_answer, line_answer, packet_line_bytes, packet_line_form, packet_line_parts};

pub use form::cut_line;
use form::{FormError, line_text, number, word};
use refusal::Refusal;

/// What a line says.
#[derive(Clone, Copy, Debug, PartialEq, Eq)]
pub struct PacketLine {
    /// The client's number as it is written, 0 to 999. It may be no client's: that it is out of range is for the caller to refuse.
    pub client: u16,
    /// Bytes of the packet.
    pub length: usize,
}

fn is_hex_digit(byte: u8) -> bool
    ensures { result ≡ is_hex_digit byte }
{
    matches!(byte, b'0'..=b'9' | b'a'..=b'f')
}

fn all_hex(text: &[u8]) -> bool
    ensures { result ≡ all_hex text.now }
{
    text.iter().all(|byte| is_hex_digit(*byte))
}

/// Is this a text of hexadecimal digits in small letters, two for each byte?
pub fn is_hex(text: &[u8]) -> bool
    ensures { result ≡ is_hex text.now }
{
    all_hex(text) && text.len() % 2 == 0
}

// A line's client and the hexadecimal digits of its packet.
fn parts(line: &[u8]) -> Result<(u16, &[u8]), FormError>
    ensures { Reads (λ p. (p.0, p.1.now)) result (packet_line_parts line.now) }
{
    let (client, rest) = number(line)?;
    let digits = line_text(word(rest, b" ")?).ok_or(FormError)?;
    if is_hex(digits) {
        Ok((client, digits))
    } else {
        Err(FormError)
    }
}

// What a hexadecimal digit stands for; 0 for any other byte.
fn hex_value(digit: u8) -> u8
    ensures value { result ≡ hex_value digit }
    ensures small { result < 16 }
{
    match digit {
        b'0'..=b'9' => digit - b'0',
        b'a'..=b'f' => digit - b'a' + 10,
        _ => 0,
    }
}

// Writes the bytes that the digits stand for to the front of the output, and answers how many they are. The kit's
// `hex::decode_to_slice` would test each digit again, and a line then takes about twice as long.
fn read_hex(digits: &[u8], out: &mut [u8]) -> Result<usize, Refusal>
    requires { is_hex digits.now ≡ true }
    ensures answer { result ≡ length_answer (hex_bytes digits.now) (length out.old) }
    ensures output { out.new ≡ leaves result (hex_bytes digits.now) out.old }
{
    let (pairs, _) = digits.as_chunks::<2>();
    if out.len() < pairs.len() {
        return Err(Refusal::OutputTooShort);
    }
    for (i, pair) in pairs.iter().enumerate() {
        out[i] = 16 * hex_value(pair[0]) + hex_value(pair[1]);
    }
    Ok(pairs.len())
}

// Reads a line without the laws that `read_line` adds.
fn read_parts(line: &[u8], out: &mut [u8]) -> Result<PacketLine, Refusal>
    ensures answer { result ≡ line_answer (packet_line_form line.now) (length out.old) }
    ensures output { out.new ≡ leaves result (packet_line_bytes (packet_line_form line.now)) out.old }
{
    let (client, digits) = parts(line)?;
    let length = read_hex(digits, out)?;
    Ok(PacketLine { client, length })
}

/// Reads a line as a client's packet, whose bytes go to the front of the output.
#[tactic(auto, using(crate::proofs::Forms::lines_read))]
pub fn read_line(line: &[u8], out: &mut [u8]) -> Result<PacketLine, Refusal>
    ensures answer { result ≡ line_answer (packet_line_form line.now) (length out.old) }
    ensures output { out.new ≡ leaves result (packet_line_bytes (packet_line_form line.now)) out.old }
    ensures all { LinesRead }
    ensures only { OnlyLinesRead }
{
    read_parts(line, out)
}
