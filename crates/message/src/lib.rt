//! Path maintenance messages: their kinds, the blocks that carry them, and the writer that makes the blocks of a message.
//! A message is two value bytes a block; its first and last blocks are marked, and all but the basic one end in a 12-bit remainder.
//! Main promise: `write` makes exactly the blocks `message_blocks` of the values with their remainder, and `read` reads each back.
#![tactic(auto)]

ghost use Rattle.std.specs.Prelude.{◌≡◌, ◌-◌, ◌<◌, ◌≤◌, true, Some, ◌++◌, length, take, drop, slice_index};
ghost use Rattle.message.specs.Blocks.{MessageBlocksTold, message_block, read_of};
ghost use Rattle.message.specs.Kinds.{block_count_of, code_of, kind_or_unknown, kind_of, name_of};
ghost use Rattle.message.specs.Values.{filled_values, lawful};
ghost use Rattle.message.specs.Written.{message_answer, message_answer_for, basic_block, message_blocks, output_with_message, output_with_message_for, MessageLaws};

use block::{Block, Sync};
use crc::Generator;
use refusal::Refusal;
use std::fmt;

/// The kinds of messages, by the names that ITU-T G.8312 gives them.
#[derive(Clone, Copy, Debug, PartialEq, Eq)]
pub enum Kind {
    /// Basic: one block, with one mark.
    Basic,
    /// Automatic protection switching.
    Aps,
    /// Connectivity verification.
    Cv,
    /// One-way delay.
    OneDm,
    /// Two-way delay, the question.
    TwoDmm,
    /// Two-way delay, the response.
    TwoDmr,
    /// Client signal.
    Cs,
}

/// A code that no kind has.
#[derive(Clone, Copy, Debug, PartialEq, Eq)]
pub struct UnknownKind {
    /// The code, six bits.
    pub code: u8,
}

impl Kind {
    // Not `From<Kind> for u8`, since a caller would not say which number it takes.
    /// The code of the kind in the head byte of its blocks, six bits.
    pub fn code(self) -> u8
        ensures { result ≡ code_of self }
    {
        match self {
            Kind::Basic => 0x0F,
            Kind::Aps => 0x11,
            Kind::Cv => 0x33,
            Kind::OneDm => 0x35,
            Kind::TwoDmm => 0x39,
            Kind::TwoDmr => 0x30,
            Kind::Cs => 0x36,
        }
    }

    /// How many blocks a message of the kind has.
    pub fn blocks(self) -> usize
        ensures { result ≡ block_count_of self }
    {
        match self {
            Kind::Basic => 1,
            Kind::Aps => 2,
            Kind::Cv => 17,
            Kind::OneDm => 5,
            Kind::TwoDmm => 5,
            Kind::TwoDmr => 13,
            Kind::Cs => 1,
        }
    }

    /// The name of the kind, as the standard writes it.
    pub fn name(self) -> &'static str
        ensures { result.now ≡ name_of self }
    {
        match self {
            Kind::Basic => "basic",
            Kind::Aps => "APS",
            Kind::Cv => "CV",
            Kind::OneDm => "1DM",
            Kind::TwoDmm => "2DMM",
            Kind::TwoDmr => "2DMR",
            Kind::Cs => "CS",
        }
    }
}

impl TryFrom<u8> for Kind {
    type Error = UnknownKind;

    ghost try_from_gives = { λ code r. r ≡ kind_or_unknown code };

    fn try_from(code: u8) -> Result<Kind, UnknownKind> {
        match code {
            0x0F => Ok(Kind::Basic),
            0x11 => Ok(Kind::Aps),
            0x33 => Ok(Kind::Cv),
            0x35 => Ok(Kind::OneDm),
            0x39 => Ok(Kind::TwoDmm),
            0x30 => Ok(Kind::TwoDmr),
            0x36 => Ok(Kind::Cs),
            _ => Err(UnknownKind { code }),
        }
    }
}

/// Its name.
impl fmt::Display for Kind {
    ghost output = { λ kind. Some (name_of kind) };

    fn fmt<W: fmt::Write>(&self, f: &mut fmt::Formatter<W>) -> fmt::Result {
        write!(f, "{}", self.name())
    }
}

/// A message of an unknown kind is refused as one with wrong value bytes is.
impl From<UnknownKind> for Refusal {
    ghost use Rattle.refusal.specs.declared.Refusal.TheVariants.{MessageInvalid};

    ghost from_gives = { λ _ r. r ≡ MessageInvalid };

    fn from(_: UnknownKind) -> Refusal {
        Refusal::MessageInvalid
    }
}

/// What a message block says; the kind is none if its code is unknown.
#[derive(Clone, Copy, Debug, PartialEq, Eq)]
pub struct MessageBlock {
    /// The kind that its code names, if one.
    pub kind: Option<Kind>,
    /// Whether it has the start mark.
    pub starts: bool,
    /// Whether it has the end mark.
    pub ends: bool,
    /// Its first value byte.
    pub first: u8,
    /// Its second value byte.
    pub second: u8,
}

/// What a block says, if it is a message block: control, type 4B, and C in the low half of byte 4.
/// The last three bytes and the high half of byte 4 are not looked at.
pub fn read(block: &Block) -> Option<MessageBlock>
    ensures { result ≡ read_of block.now }
{
    let Sync::Control = block.sync else {
        return None;
    };
    match block.bytes {
        [0x4B, head, first, second, order, ..] if order % 16 == 0x0C => Some(MessageBlock {
            kind: Kind::try_from(head / 4).ok(),
            starts: head % 2 == 1,
            ends: head / 2 % 2 == 1,
            first,
            second,
        }),
        _ => None,
    }
}

/// A block is a message block exactly if it is a control block of type 4B with C in the low half of byte 4.
#[tactic(auto, using(crate::proofs::Told::told))]
pub fn message_blocks_are_told()
    ensures { MessageBlocksTold }
{}

// One block of a message. It takes five values, since a `MessageBlock` may be of an unknown kind and this one is not.
fn message_block(kind: Kind, starts: bool, ends: bool, first: u8, second: u8) -> Block
    ensures { result ≡ message_block kind starts ends first second }
{
    let marks = 2 * u8::from(ends) + u8::from(starts);
    let head = 4 * kind.code() + marks;
    Block {
        sync: Sync::Control,
        bytes: [0x4B, head, first, second, 0x0C, 0, 0, 0],
    }
}

/// Where a basic message stands: it has the start mark before a protection opportunity and the end mark before a low priority one.
#[derive(Clone, Copy, Debug, PartialEq, Eq)]
pub enum Mark {
    /// Before a protection opportunity.
    Start,
    /// Before a low priority opportunity.
    End,
}

/// The block of a basic message.
pub fn basic(mark: Mark) -> Block
    ensures { result ≡ basic_block mark }
{
    match mark {
        Mark::Start => message_block(Kind::Basic, true, false, 0, 0),
        Mark::End => message_block(Kind::Basic, false, true, 0, 0),
    }
}

// Kind and values stay two parameters, here and in `lawful`: a type of lawful values would need a call that refuses, as this one does.
/// Writes the blocks of a message to the front of the output, and answers how many. The values are two bytes for each block of the kind,
/// with zeros in the twelve places of the remainder and in the four before them, of which CS uses the first two.
/// Refused are values that are not lawful (10), and then an output with too few places (12); the output is then as before.
pub fn write(kind: Kind, values: &[u8], output: &mut [Block]) -> Result<usize, Refusal>
    ensures answer { result ≡ message_answer kind values.now output.old }
    ensures output { output.new ≡ output_with_message kind values.now output.old }
    ensures laws { MessageLaws }
{
    if !lawful(kind, values) {
        return Err(Refusal::MessageInvalid);
    }
    let blocks = kind.blocks();
    if output.len() < blocks {
        return Err(Refusal::OutputTooShort);
    }
    write_blocks(kind, values, output);
    Ok(blocks)
}

/// The same for a code, for a caller that has only the byte; one that no kind has is refused with 10.
pub fn write_code(code: u8, values: &[u8], output: &mut [Block]) -> Result<usize, Refusal>
    ensures answer { result ≡ message_answer_for (kind_of code) values.now output.old }
    ensures output { output.new ≡ output_with_message_for (kind_of code) values.now output.old }
{
    write(Kind::try_from(code)?, values, output)
}

/// Whether these are value bytes of a message of this kind, with zeros in the places that the writer fills.
pub fn lawful(kind: Kind, values: &[u8]) -> bool
    ensures { result ≡ lawful kind values.now }
{
    let free_below = match kind {
        Kind::Basic => return false,
        Kind::Cs => 4,
        _ => 1,
    };
    let count = 2 * kind.blocks();
    values.len() == count && values[count - 2] < free_below && values[count - 1] == 0
}

fn write_blocks(kind: Kind, values: &[u8], output: &mut [Block])
    requires lawful { lawful kind values.now ≡ true }
    requires room { block_count_of kind ≤ length output.old }
    ensures { output.new ≡ message_blocks kind (filled_values values.now) ++ drop (block_count_of kind) output.old }
{
    let last = kind.blocks() - 1;
    // by place: with a `zip` the first block would still be told from the others by its number
    for (i, pair) in values.chunks_exact(2).take(last).enumerate() {
        output[i] = message_block(kind, i == 0, false, pair[0], pair[1]);
    }
    let [first, second] = last_values(values);
    output[last] = message_block(kind, last == 0, true, first, second);
}

// The last two value bytes once the remainder is filled in.
fn last_values(values: &[u8]) -> [u8; 2]
    requires two { 2 ≤ length values.now }
    requires most { length values.now ≤ 34 }
    requires free { slice_index values.now (length values.now - 2) < 16 }
    ensures { take (length values.now - 2) values.now ++ result ≡ filled_values values.now }
{
    let count = values.len();
    let remainder = Generator::degree_twelve().remainder(values, 0, 8 * count - 12);
    let free = u16::from(values[count - 2]);
    (remainder.reverse_bits() + free).to_le_bytes()
}
