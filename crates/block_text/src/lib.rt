//! A block as a line of text: its two sync bits in the order of sending, a blank, its bytes in hexadecimal, a newline.
//! Digits above 9 are small letters; a data block begins with `01`, a control block with `10`.
//! Main promise: a line is read as a block exactly if it is that block written out; any other is a broken form.
#![tactic(auto)]

ghost use Rattle.std.specs.Prelude.{◌≡◌, ◌==◌, ◌&&◌, length};
ghost use Rattle.form.specs.Reads.{Reads};
ghost use Rattle.packet_text.specs.Hex.{hex_bytes, hex_text};
ghost use Rattle.block_text.specs.Lines.{BlocksRead, OnlyBlocksRead, block_bytes, block_form, block_line, leading_sync, sync_digits, sync_of};

use block::{Block, Sync};
use form::{FormError, line_text, word};
use packet_text::is_hex;

/// Bytes of a block's line.
pub const LINE_LEN: usize = 20;

// The sync bits as digits.
fn sync_digits(sync: Sync) -> &'static [u8; 2]
    ensures { result.now ≡ sync_digits sync }
{
    match sync {
        Sync::Zeros => b"00",
        Sync::Control => b"10",
        Sync::Data => b"01",
        Sync::Ones => b"11",
    }
}

// The digits of a block's bytes.
fn byte_digits(bytes: &[u8; 8]) -> [u8; 16]
    ensures { result ≡ hex_text bytes.now }
{
    let mut digits = [0; 16];
    // never refused: there are two places for each byte
    let _ = hex::encode_to_slice(&bytes[..], &mut digits);
    digits
}

/// The line of a block.
pub fn write(block: Block) -> [u8; LINE_LEN]
    ensures { result ≡ block_line block }
{
    let mut line = *b"00 0000000000000000\n";
    line[..2].copy_from_slice(sync_digits(block.sync));
    line[3..19].copy_from_slice(&byte_digits(&block.bytes));
    line
}

// The sync bits that two digits say.
fn sync_of(first: u8, second: u8) -> Option<Sync>
    ensures { result ≡ sync_of first second }
{
    match (first, second) {
        (b'0', b'0') => Some(Sync::Zeros),
        (b'1', b'0') => Some(Sync::Control),
        (b'0', b'1') => Some(Sync::Data),
        (b'1', b'1') => Some(Sync::Ones),
        _ => None,
    }
}

// The sync bits that a line begins with, and what follows them.
fn leading_sync(text: &[u8]) -> Result<(Sync, &[u8]), FormError>
    ensures { Reads (λ p. (p.0, p.1.now)) result (leading_sync text.now) }
{
    let [first, second, rest @ ..] = text else {
        return Err(FormError);
    };
    let sync = sync_of(*first, *second).ok_or(FormError)?;
    Ok((sync, rest))
}

// The eight bytes that sixteen digits write.
fn block_bytes(digits: &[u8]) -> Result<[u8; 8], FormError>
    ensures { Reads (λ bytes. bytes) result (block_bytes digits.now) }
{
    let mut bytes = [0; 8];
    if !is_hex(digits) {
        return Err(FormError);
    }
    match hex::decode_to_slice(digits, &mut bytes) {
        Ok(()) => Ok(bytes),
        Err(_) => Err(FormError),
    }
}

// Reads a line without the laws that `read` adds.
fn read_parts(line: &[u8]) -> Result<Block, FormError>
    ensures { Reads (λ block. block) result (block_form line.now) }
{
    let (sync, rest) = leading_sync(line)?;
    let digits = line_text(word(rest, b" ")?).ok_or(FormError)?;
    let bytes = block_bytes(digits)?;
    Ok(Block { sync, bytes })
}

/// The block that a line says.
#[tactic(auto, using(crate::proofs::Forms::blocks_read, crate::proofs::Forms::only_blocks_read))]
pub fn read(line: &[u8]) -> Result<Block, FormError>
    ensures block { Reads (λ block. block) result (block_form line.now) }
    ensures all { BlocksRead }
    ensures only { OnlyBlocksRead }
{
    read_parts(line)
}

#[cfg(test)]
mod tests {
    use super::*;

    // Lines of blocks, worked by hand.
    #[test]
    fn lines(rt: HostRuntime) {
        let data = Block {
            sync: Sync::Data,
            bytes: [0x01, 0x23, 0x45, 0x67, 0x89, 0xAB, 0xCD, 0xEF],
        };
        let table = [
            (Block::idle(), b"10 1e00000000000000\n"),
            (Block::error(), b"10 1e1e8fc7e3f1783c\n"),
            (data, b"01 0123456789abcdef\n"),
            (
                Block {
                    sync: Sync::Zeros,
                    bytes: [0; 8],
                },
                b"00 0000000000000000\n",
            ),
            (
                Block {
                    sync: Sync::Ones,
                    bytes: [0xFF; 8],
                },
                b"11 ffffffffffffffff\n",
            ),
        ];
        for (block, line) in table {
            assert_eq!(rt; write(block), *line);
            assert_eq!(rt; read(line), Ok(block));
        }
    }

    // Lines that are no block's.
    #[test]
    fn no_lines(rt: HostRuntime) {
        let table: [&[u8]; 12] = [
            b"",
            b"\n",
            b"01",
            b"01 0123456789abcdef",
            b"01 0123456789abcdef\r\n",
            b"01 0123456789abcdeF\n",
            b"01 0123456789abcde\n",
            b"01 0123456789abcdef00\n",
            b"01  123456789abcdef\n",
            b"02 0123456789abcdef\n",
            b" 01 0123456789abcdef\n",
            b"010123456789abcdef\n",
        ];
        for line in table {
            assert_eq!(rt; read(line), Err(FormError));
        }
    }
}
