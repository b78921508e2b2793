//! Collects path messages from their blocks as they come, protection messages apart from the low priority ones.
//! A block is reported as what it completes or breaks: a whole message, a wrong remainder (P1), an unknown kind (P2), a broken sequence (P3).
//! Main promise: `take` does and reports exactly what the definitions `after` and `report_of` say, whose laws are in `CollectorLaws`.
#![tactic(auto)]

ghost use Rattle.std.specs.Prelude.{◌≡◌, IfSome, IsFalse, Some, length};
ghost use Rattle.std.specs.Option.{option_map};
ghost use Rattle.collector.specs.Faults.{message_fault_number, message_fault_of, message_fault_text, report_faults};
ghost use Rattle.collector.specs.Laws.{CollectorLaws, FaultLaws, LatestLaws};
ghost use Rattle.collector.specs.Content.{IsPart};
ghost use Rattle.collector.specs.State.{IsFull, IsSoundState, last_of, place_of};
ghost use Rattle.collector.specs.Step.{after, after_basic, after_part, collection_of, new_state, report_basic, report_of, report_part, with_collection, with_last_whole, with_no_question};

mod assembly;
mod question;

pub use assembly::Message;
use assembly::{Outcome, Unfinished};
use message::{Kind, MessageBlock};
pub use question::Question;
use question::Single;
use std::fmt;
use std::marker::Model;

/// The faults of message blocks: P1, P2 and P3.
#[derive(Clone, Copy, Debug, PartialEq, Eq)]
pub enum MessageFault {
    /// P1: the bits of a message do not leave the remainder 0.
    Remainder,
    /// P2: no kind has the code of the block.
    UnknownKind,
    /// P3: the block does not follow what has come, or gives up what was begun.
    Sequence,
}

/// What a block can have besides a broken sequence.
#[derive(Clone, Copy, Debug, PartialEq, Eq)]
pub enum BlockError {
    /// P1: it ends a message whose bits do not leave the remainder 0.
    WrongRemainder,
    /// P2: no kind has its code.
    UnknownCode,
}

impl From<BlockError> for MessageFault {
    ghost from_gives = { λ error fault. fault ≡ message_fault_of error };

    fn from(error: BlockError) -> MessageFault {
        match error {
            BlockError::WrongRemainder => MessageFault::Remainder,
            BlockError::UnknownCode => MessageFault::UnknownKind,
        }
    }
}

/// What is reported of a block. A start mark can break the sequence of the message that it gives up while its own block is sound or has a
/// fault besides, so that both are told.
#[derive(Clone, Copy, Debug, PartialEq, Eq)]
pub struct Report {
    /// Whether the block broke a sequence: P3, at most once, and before any P1.
    pub broken: bool,
    /// The kind of the message that it makes whole, if one, or P1 or P2.
    pub found: Result<Option<Kind>, BlockError>,
}

/// What has come of a message in each of the two collections, the message that came whole last by kind, and the question that waits.
/// It cannot be copied, so that no question is handed out twice.
#[derive(Drop)]
pub struct Collector {
    single: Single,
    aps: Option<Unfinished>,
    low: Option<Unfinished>,
    kept: [Option<Message>; 7],
    question: Option<[u8; 8]>,
}

impl Model for Collector {
    ghost use Rattle.collector.specs.State.{CollectorState, IsSoundState};

    ghost Value = { CollectorState };

    ghost view = { λ c. record { aps = c.aps; low = c.low; kept = c.kept; question = c.question } };

    ghost invariant = { λ c. IsSoundState (record { aps = c.aps; low = c.low; kept = c.kept; question = c.question }) };
}

// The place of a kind among the messages kept; an array by kind, since there is no heap here for a map.
fn place(kind: Kind) -> usize
    ensures { result ≡ place_of kind }
{
    match kind {
        Kind::Basic => 0,
        Kind::Aps => 1,
        Kind::Cv => 2,
        Kind::OneDm => 3,
        Kind::TwoDmm => 4,
        Kind::TwoDmr => 5,
        Kind::Cs => 6,
    }
}

impl Report {
    fn new(broken: bool, found: Result<Option<Kind>, BlockError>) -> Report
        ensures { result ≡ record { broken = broken; found = found } }
    {
        Report { broken, found }
    }

    /// The faults of a block in the order in which they are listed.
    pub fn faults(self) -> [Option<MessageFault>; 2]
        ensures { result ≡ report_faults self }
    {
        let first = self.broken.then_some(MessageFault::Sequence);
        let second = self.found.err().map(MessageFault::from);
        [first, second]
    }
}

impl MessageFault {
    // Not `From<MessageFault> for u8`, since a caller would not say which number it takes.
    /// The number by which an operator knows the fault.
    pub fn number(self) -> u8
        ensures { result ≡ message_fault_number self }
    {
        match self {
            MessageFault::Remainder => 1,
            MessageFault::UnknownKind => 2,
            MessageFault::Sequence => 3,
        }
    }
}

/// `P1`, `P2` or `P3`.
impl fmt::Display for MessageFault {
    ghost output = { λ fault. Some (message_fault_text fault) };

    fn fmt<W: fmt::Write>(&self, f: &mut fmt::Formatter<W>) -> fmt::Result {
        write!(f, "P{}", self.number())
    }
}

impl Collector {
    /// A collector to which no block has come.
    pub fn new() -> Collector
        ensures state { result ≡ new_state }
        ensures sound { IsSoundState result }
        ensures laws { CollectorLaws }
        ensures faults { FaultLaws }
        ensures latest { LatestLaws }
    {
        Collector {
            single: Single,
            aps: None,
            low: None,
            kept: [None; 7],
            question: None,
        }
    }

    /// Takes one message block.
    pub fn take(&mut self, block: MessageBlock) -> Report
        ensures state { self.new ≡ after self.old block }
        ensures report { result ≡ report_of self.old block }
        ensures sound { IsSoundState self.old }
    {
        // names a field, so that what holds of every collector is known here
        let _ = &self.question;
        match block.kind {
            None => Report::new(false, Err(BlockError::UnknownCode)),
            Some(Kind::Basic) => self.take_basic(block),
            Some(kind) => self.take_part(kind, block),
        }
    }

    /// The last whole message of a kind.
    pub fn last(&self, kind: Kind) -> Option<Message>
        ensures last { result ≡ last_of kind self.now }
        ensures full { IfSome result (IsFull kind) }
        ensures sound { IsSoundState self.now }
    {
        let index = place(kind);
        self.kept[index]
    }

    /// Hands out the question that waits, if one does. It is still to be answered or declined.
    pub fn collect(&mut self) -> Option<Question>
        ensures question { option_map (λ q. q.time) result ≡ self.old.question }
        ensures long { IfSome result (λ q. length q.time ≡ 8) }
        ensures open { IfSome result (λ q. IsFalse q.settled) }
        ensures state { self.new ≡ with_no_question self.old }
        ensures sound { IsSoundState self.old }
    {
        let time = self.question.take()?;
        Some(Question::ask(time))
    }

    // A basic message is one block with exactly one mark.
    fn take_basic(&mut self, block: MessageBlock) -> Report
        ensures state { self.new ≡ after_basic self.old block }
        ensures report { result ≡ report_basic block }
    {
        if block.starts == block.ends {
            return Report::new(true, Ok(None));
        }
        self.keep(Message::basic(block.first, block.second));
        Report::new(false, Ok(Some(Kind::Basic)))
    }

    // A block of a kind that is collected.
    fn take_part(&mut self, kind: Kind, block: MessageBlock) -> Report
        ensures state { self.new ≡ after_part kind self.old block }
        ensures report { result ≡ report_part kind self.old block }
    {
        let collection = self.collection(kind);
        let broken = block.starts && collection.is_some();
        let outcome = assembly::next(collection, kind, block);
        self.hold(kind, outcome.unfinished());
        match outcome {
            Outcome::Broken => Report::new(true, Ok(None)),
            Outcome::Incomplete(_) => Report::new(broken, Ok(None)),
            Outcome::Corrupt => Report::new(broken, Err(BlockError::WrongRemainder)),
            Outcome::Whole(message) => {
                self.keep(message);
                Report::new(broken, Ok(Some(message.kind())))
            }
        }
    }

    // What is being collected with messages of a kind.
    fn collection(&self, kind: Kind) -> Option<Unfinished>
        ensures { result ≡ collection_of kind self.now }
    {
        match kind {
            Kind::Aps => self.aps,
            _ => self.low,
        }
    }

    fn hold(&mut self, kind: Kind, unfinished: Option<Unfinished>)
        requires { IfSome unfinished IsPart }
        ensures { self.new ≡ with_collection kind unfinished self.old }
    {
        if kind == Kind::Aps {
            self.aps = unfinished;
        } else {
            self.low = unfinished;
        }
    }

    // Keeps a whole message as the last of its kind; one of two-way delay waits as a question too.
    fn keep(&mut self, message: Message)
        requires { IsFull message.kind message }
        ensures { self.new ≡ with_last_whole message self.old }
    {
        let kind = message.kind();
        self.kept[place(kind)] = Some(message);
        if kind == Kind::TwoDmm {
            self.question = Some(message.time());
        }
    }
}
