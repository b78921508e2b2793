//! How values are written as text, and the line that compares a value expected with one computed.
//! Texts are `String`s, since they are compared with the text expected.
//! Bytes are written in hexadecimal with single blanks, and a block with its sync bits in front.
//! Main promise: `line` says `ok` exactly if the text computed is the text expected, and each text is the one that its definition gives.
#![tactic(auto)]

ghost use Rattle.std.specs.Prelude.{◌≡◌, ◌<◌, [], ◌∷◌, IfOk, Some, string_bytes};
ghost use Rattle.std.specs.Fmt.{WritesOnOk};
ghost use Rattle.value_text.specs.Texts.{HexReadsBack, SameTexts, block_text, capital_digit, comparison_line, hex_of, refusal_text, sync_text, verdict_of};

use block::{Block, Sync};
use refusal::Refusal;
use std::alloc::{AllocError, Global};
use std::fmt;

/// Bytes to be written in hexadecimal: two digits each, those above 9 as capital letters, and single blanks between the bytes.
#[derive(Clone, Copy, Debug, PartialEq, Eq)]
pub struct HexBytes<'a> {
    /// The bytes, in the order of writing.
    pub bytes: &'a [u8],
}

impl fmt::Display for HexBytes<'_> {
    ghost output = { λ hex. Some (hex_of hex.bytes.now) };

    fn fmt<W: fmt::Write>(&self, f: &mut fmt::Formatter<W>) -> fmt::Result {
        write_hex(f, self.bytes)
    }
}

// A hexadecimal digit as text.
fn digit_text(digit: u8) -> &'static str
    requires { digit < 16 }
    ensures { result.now ≡ capital_digit digit ∷ [] }
{
    match digit {
        0 => "0",
        1 => "1",
        2 => "2",
        3 => "3",
        4 => "4",
        5 => "5",
        6 => "6",
        7 => "7",
        8 => "8",
        9 => "9",
        10 => "A",
        11 => "B",
        12 => "C",
        13 => "D",
        14 => "E",
        _ => "F",
    }
}

// The same with a blank in front.
fn spaced_digit_text(digit: u8) -> &'static str
    requires { digit < 16 }
    ensures { result.now ≡ 32 ∷ capital_digit digit ∷ [] }
{
    match digit {
        0 => " 0",
        1 => " 1",
        2 => " 2",
        3 => " 3",
        4 => " 4",
        5 => " 5",
        6 => " 6",
        7 => " 7",
        8 => " 8",
        9 => " 9",
        10 => " A",
        11 => " B",
        12 => " C",
        13 => " D",
        14 => " E",
        _ => " F",
    }
}

// Digit by digit: a format for each byte, as `{byte:02X}`, takes two to three times as long.
fn write_hex<W: fmt::Write>(f: &mut fmt::Formatter<W>, bytes: &[u8]) -> fmt::Result
    ensures { WritesOnOk W.write_str_gives f.old result (hex_of bytes.now) f.new }
{
    for (i, byte) in bytes.iter().enumerate() {
        let high = *byte / 16;
        let first = if i == 0 {
            digit_text(high)
        } else {
            spaced_digit_text(high)
        };
        f.write_str(first)?;
        f.write_str(digit_text(*byte % 16))?;
    }
    Ok(())
}

// `ok` or `differs`, a word of the line alone, and so no type with a `Display`.
fn verdict(expected: &str, computed: &str) -> &'static str
    ensures { result.now ≡ verdict_of expected.now computed.now }
{
    if expected == computed {
        "ok"
    } else {
        "differs"
    }
}

/// A value's name, what is expected, what was computed, and whether they are the same.
pub fn line(alloc: Global, name: &str, expected: &str, computed: &str) -> Result<String, AllocError>
    ensures { IfOk result (λ t. string_bytes t ≡ comparison_line name.now expected.now computed.now) }
{
    let verdict = verdict(expected, computed);
    format!(in alloc; "{name}: expected {expected}, computed {computed}: {verdict}")
}

/// Bytes in hexadecimal.
pub fn hex(alloc: Global, bytes: &[u8]) -> Result<String, AllocError>
    ensures { IfOk result (λ t. string_bytes t ≡ hex_of bytes.now) }
{
    let hex = HexBytes { bytes };
    format!(in alloc; "{hex}")
}

/// The verdict of `line` is `ok` exactly for equal texts.
pub fn same_texts()
    ensures { SameTexts }
{}

/// Bytes are read back from their text.
pub fn hex_reads_back()
    ensures { HexReadsBack }
{}

// The sync bits in the order of sending. Not a `Display` of `Sync`: it is how the lines here name them, and no other text need.
fn sync_text(sync: Sync) -> &'static str
    ensures { result.now ≡ sync_text sync }
{
    match sync {
        Sync::Zeros => "00",
        Sync::Control => "10",
        Sync::Data => "01",
        Sync::Ones => "11",
    }
}

/// A block's sync bits and bytes.
pub fn block_text(alloc: Global, block: &Block) -> Result<String, AllocError>
    ensures { IfOk result (λ t. string_bytes t ≡ block_text block.now) }
{
    let sync = sync_text(block.sync);
    let bytes = HexBytes {
        bytes: &block.bytes,
    };
    format!(in alloc; "{sync} {bytes}")
}

/// That a call was refused, and the number of the cause.
pub fn refused(alloc: Global, cause: Refusal) -> Result<String, AllocError>
    ensures { IfOk result (λ t. string_bytes t ≡ refusal_text cause) }
{
    format!(in alloc; "refused with {}", cause.number())
}
