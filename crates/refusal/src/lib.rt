//! The causes for which a call is refused, in one enum for the whole product.
//! Each cause has a fixed number, by which a script or an operator knows it.
//! Main promise: `number` answers the number that the definition `number_of` gives the cause.
#![tactic(auto)]

ghost use Rattle.std.specs.Prelude.{◌≡◌};
ghost use Rattle.refusal.specs.Numbers.{number_of};

/// Why a call is refused.
#[derive(Clone, Copy, Debug, PartialEq, Eq)]
pub enum Refusal {
    /// A byte of the sheet is no mark.
    MarkNotAllowed,
    /// A line of the sheet has not the form of a lease, or the sheet is too long.
    FormBroken,
    /// A number is outside its range, which is 1 to 480 for clients and slots, or a group's last slot lies before its first.
    OutOfRange,
    /// A slot is given twice.
    SlotTwice,
    /// A client is named on two lines.
    ClientTwice,
    /// A packet's length is outside 64 to 2,000, or lengths do not add up to the bytes.
    PacketLength,
    /// Fewer than two free places at an outlet, or none at a queue.
    NoFreePlace,
    /// As many blocks are accepted as a receiver counts.
    BlockLimit,
    /// A message of its sort waits to be sent.
    MessageWaits,
    /// A message has no kind that can be written, or its value bytes are not those of the kind.
    MessageInvalid,
    /// No packet stands at the front of the blocks; blocks of another length than a packet may have are none.
    NoPacket,
    /// The output is too short.
    OutputTooShort,
}

/// The level at which a sheet is refused: its marks, the form of a line, or the calendar that it gives.
#[derive(Clone, Copy, Debug, PartialEq, Eq)]
pub enum Level {
    /// Which bytes it holds.
    Marks,
    /// How its lines are written.
    Forms,
    /// What its leases ask for.
    Calendar,
}

/// Why a sheet is refused: the cause, the level that found it, and the line, counted from 1.
#[derive(Clone, Copy, Debug, PartialEq, Eq)]
pub struct SheetRefusal {
    /// The rule that is broken.
    pub cause: Refusal,
    /// The level that found it.
    pub level: Level,
    /// Counted from 1.
    pub line: usize,
}

impl Refusal {
    // Not `From<Refusal> for u8`, since a caller would not say which number it takes.
    /// The number by which a script or an operator knows the cause.
    pub fn number(self) -> u8
        ensures { result ≡ number_of self }
    {
        match self {
            Refusal::MarkNotAllowed => 1,
            Refusal::FormBroken => 2,
            Refusal::OutOfRange => 3,
            Refusal::SlotTwice => 4,
            Refusal::ClientTwice => 5,
            Refusal::PacketLength => 6,
            Refusal::NoFreePlace => 7,
            Refusal::BlockLimit => 8,
            Refusal::MessageWaits => 9,
            Refusal::MessageInvalid => 10,
            Refusal::NoPacket => 11,
            Refusal::OutputTooShort => 12,
        }
    }
}
