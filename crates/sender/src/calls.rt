//! What can be done with a sender.

ghost use Rattle.std.specs.Prelude.{◌≡◌, ◌<◌, [], ◌∷◌, ◌++◌, IfErr, Some};
ghost use Rattle.block.specs.Fixed.{start_block};
ghost use Rattle.calendar.specs.Entries.{entries_of};
ghost use Rattle.collector.specs.Reply.{reply_answer, reply_values};
ghost use Rattle.message.specs.Kinds.{kind_of};
ghost use Rattle.message.specs.declared.Kind.TheVariants.{TwoDmr};
ghost use Rattle.refusal.specs.declared.Refusal.TheVariants.{MessageWaits};
ghost use Rattle.sending.specs.Life.{Lengthens, leave, made, send, state_of};
ghost use Rattle.sending.specs.Messages.{cs_block, cv_block};
ghost use Rattle.sending.specs.Laid.{lists_after_frame};
ghost use Rattle.sending.specs.Sender.{frame_result, item_of, leave_answer, new_sender, send_of, state_after_leave, with_state};

use crate::Sender;
use crate::laying::lay;
use block::Block;
use calendar::Calendar;
use collector::Question;
use message::{Kind, basic};
use numbers::FrameNumber;
use overhead::Overhead;
use port::Inlet;
use refusal::Refusal;
use schedule::{Item, Position};
use under_way::outgoing::Outgoing;
use waiting::LeftMessages;

impl Sender {
    /// A sender for a calendar, with the 32 trail bytes of its CV message; nothing is sent, and no message waits.
    #[tactic(auto, unfolding(sending::specs::Life::state_of))]
    pub fn new(calendar: Calendar, trail: [u8; 32]) -> Sender
        ensures made { result ≡ new_sender (entries_of calendar) trail }
        ensures life { state_of result.made made ≡ result.state }
    {
        Sender {
            calendar,
            trail,
            frame: Outgoing::new(),
            position: Position::first(),
            number: FrameNumber::first(),
            messages: LeftMessages::none(),
        }
    }

    /// The next block of the path. Where it begins a frame, up to two blocks for each of a client's slots are taken from its list.
    pub fn send<I: Inlet>(&mut self, inlet: &mut I) -> Block
        ensures block { result ≡ (send_of self.old (I.waiting inlet.old)).block }
        ensures sender { self.new ≡ with_state self.old (send_of self.old (I.waiting inlet.old)).state }
        ensures lists { I.waiting inlet.new ≡ (send_of self.old (I.waiting inlet.old)).waiting }
        ensures life { Lengthens self.old (send (I.waiting inlet.old)) self.new (result ∷ []) }
    {
        if let Some(block) = self.frame.next() {
            return block;
        }
        self.begin_item(inlet)
    }

    /// Leaves a delay message (1DM, 2DMM, 2DMR) or an APS message by kind and value bytes, with zeros where the remainder goes. Refused are any
    /// other kind and values that are not lawful for the kind (10), then a message of a sort of which one waits (9); the sender is then as before.
    pub fn leave(&mut self, kind: Kind, values: &[u8]) -> Result<(), Refusal>
        ensures answer { result ≡ leave_answer self.old.state (Some kind) values.now }
        ensures sender { self.new ≡ with_state self.old (state_after_leave self.old.state (Some kind) values.now) }
        ensures life { Lengthens self.old (leave (Some kind) values.now) self.new [] }
    {
        self.messages.leave(kind, values)
    }

    /// The same by the code of a kind; a code that no kind has is refused with 10.
    pub fn leave_code(&mut self, code: u8, values: &[u8]) -> Result<(), Refusal>
        ensures answer { result ≡ leave_answer self.old.state (kind_of code) values.now }
        ensures sender { self.new ≡ with_state self.old (state_after_leave self.old.state (kind_of code) values.now) }
        ensures life { Lengthens self.old (leave (kind_of code) values.now) self.new [] }
    {
        self.messages.leave_code(code, values)
    }

    /// Answers a question of two-way delay: leaves the response (2DMR), with the time at which the question was received and that at which the
    /// response is sent. Refused where a delay message waits (9): the question comes back, still to be answered or declined, and the sender is as
    /// before.
    pub fn answer(
        &mut self,
        question: Question,
        received: [u8; 8],
        sent: [u8; 8],
    ) -> Result<(), (Refusal, Question)>
        ensures answer { reply_answer result ≡ leave_answer self.old.state (Some TwoDmr) (reply_values question.time received sent) }
        ensures sender { self.new ≡ with_state self.old (state_after_leave self.old.state (Some TwoDmr) (reply_values question.time received sent)) }
        ensures only { IfErr result (λ e. e.0 ≡ MessageWaits) }
        ensures back { IfErr result (λ e. e.1 ≡ question) }
        ensures life { Lengthens self.old (leave (Some TwoDmr) (reply_values question.time received sent)) self.new [] }
    {
        question.answer(received, sent, &mut self.messages)
    }

    // Begins what stands next in the schedule, between frames. A call of its own: inlined, it makes every send save and restore registers
    // that only it uses.
    #[inline(never)]
    #[tactic(auto, unfolding(sending::specs::Sender::item_result, sending::specs::Sender::frame_result))]
    fn begin_item<I: Inlet>(&mut self, inlet: &mut I) -> Block
        requires { self.old.state.rest ≡ [] }
        ensures block { result ≡ (item_of self.old (I.waiting inlet.old)).block }
        ensures sender { self.new ≡ with_state self.old (item_of self.old (I.waiting inlet.old)).state }
        ensures lists { I.waiting inlet.new ≡ (item_of self.old (I.waiting inlet.old)).waiting }
    {
        let item = self.position.item();
        self.position = self.position.next();
        match item {
            Item::Frame => self.begin_frame(inlet),
            Item::Idle | Item::Spare => Block::idle(),
            Item::Basic(mark) => basic(mark),
            Item::Protection => self.messages.protection_block().unwrap_or(Block::idle()),
            Item::Verification(block) => verification_block(&self.trail, block),
            Item::ClientSignal => client_signal_block(),
            Item::Delay(block) => self.messages.delay_block(block).unwrap_or(Block::idle()),
        }
    }

    // Lays the pairs of the next frame, begins it, and answers its start block.
    fn begin_frame<I: Inlet>(&mut self, inlet: &mut I) -> Block
        requires { self.old.state.rest ≡ [] }
        ensures block { result ≡ start_block }
        ensures sender { self.new ≡ with_state self.old (record (frame_result self.old.made self.old.state (I.waiting inlet.old)).state { position = self.old.state.position }) }
        ensures lists { I.waiting inlet.new ≡ lists_after_frame self.old.made.calendar (I.waiting inlet.old) }
    {
        lay(&self.calendar, inlet, &mut self.frame);
        let announced = self.calendar.client(self.number.slot());
        self.frame.begin(Overhead {
            announced,
            frame: self.number,
        });
        self.number = self.number.next();
        self.frame.next().unwrap()
    }
}

// A block of the CV message over the trail bytes.
fn verification_block(trail: &[u8; 32], block: u8) -> Block
    requires { block < 17 }
    ensures { result ≡ cv_block trail.now block }
{
    let mut blocks = [Block::idle(); 17];
    // a lawful message, for which there are places
    let _ = message::write(Kind::Cv, &verification_values(trail), &mut blocks);
    blocks[block as usize]
}

// The value bytes of the CV message: the trail, and zeros where the remainder goes.
fn verification_values(trail: &[u8; 32]) -> [u8; 34]
    ensures { result ≡ trail.now ++ 0 ∷ 0 ∷ [] }
{
    let mut values = [0; 34];
    values[..32].copy_from_slice(trail);
    values
}

// The CS message, with payload type 11.
fn client_signal_block() -> Block
    ensures { result ≡ cs_block }
{
    let mut blocks = [Block::idle(); 1];
    // a lawful message, for which there is a place
    let _ = message::write(Kind::Cs, &[3, 0], &mut blocks);
    blocks[0]
}
