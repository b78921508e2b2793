//! The messages that wait.

ghost use Rattle.std.specs.Prelude.{◌≡◌, IfOk, Some};
ghost use Rattle.message.specs.Kinds.{kind_of};
ghost use Rattle.waiting.specs.Messages.{sort_of};
ghost use Rattle.waiting.specs.Left.{delay_block, left_after_delay, left_after_leave, left_after_protection, left_answer, nothing_left, protection_block};

use crate::Sort;
use crate::message_waiting::MessageWaiting;
use block::Block;
use message::Kind;
use refusal::Refusal;
use std::marker::Model;

/// A delay message and an APS message, each if one waits. One that is left waits until its last block is gone.
#[derive(Drop)]
pub struct LeftMessages {
    delay: MessageWaiting,
    protection: MessageWaiting,
}

impl Model for LeftMessages {
    ghost use Rattle.waiting.specs.Messages.{sort_of};
    ghost use Rattle.waiting.specs.Left.{WaitingBySort};

    ghost Value = { WaitingBySort };

    ghost view = { λ l. record { delay = l.delay; protection = l.protection } };
}

impl LeftMessages {
    /// None of either sort.
    pub fn none() -> LeftMessages
        ensures { result ≡ nothing_left }
    {
        LeftMessages {
            delay: MessageWaiting::none(),
            protection: MessageWaiting::none(),
        }
    }

    /// Leaves a message by its kind and its value bytes, with zeros where the remainder goes. Refused are kinds that may not be left and values
    /// that are not lawful for the kind (10), and then a message of a sort of which one waits (9); what waits is then as before.
    pub fn leave(&mut self, kind: Kind, values: &[u8]) -> Result<(), Refusal>
        ensures answer { result ≡ left_answer self.old (Some kind) values.now }
        ensures left { self.new ≡ left_after_leave self.old (Some kind) values.now }
    {
        match sort_of(kind) {
            None => Err(Refusal::MessageInvalid),
            Some(Sort::Delay) => self.delay.leave(kind, values),
            Some(Sort::Protection) => self.protection.leave(kind, values),
        }
    }

    /// The same by the code of a kind; a code that no kind has is refused with 10.
    pub fn leave_code(&mut self, code: u8, values: &[u8]) -> Result<(), Refusal>
        ensures answer { result ≡ left_answer self.old (kind_of code) values.now }
        ensures left { self.new ≡ left_after_leave self.old (kind_of code) values.now }
    {
        self.leave(Kind::try_from(code)?, values)
    }

    /// What goes at the low priority opportunity for a delay message's block of this number, from 0: the block, if it is the next one of a message
    /// that waits.
    pub fn delay_block(&mut self, block: u8) -> Option<Block>
        ensures block { result ≡ delay_block self.old block }
        ensures after { self.new ≡ left_after_delay self.old block }
    {
        if self.delay.gone() == block as usize && self.delay.waits() {
            Some(self.delay.next())
        } else {
            None
        }
    }

    /// What goes at a protection opportunity: the next block of an APS message, if one waits.
    pub fn protection_block(&mut self) -> Option<Block>
        ensures block { result ≡ protection_block self.old }
        ensures after { self.new ≡ left_after_protection self.old }
    {
        if self.protection.waits() {
            Some(self.protection.next())
        } else {
            None
        }
    }
}

// The sort of a kind that may be left.
fn sort_of(kind: Kind) -> Option<Sort>
    ensures { result ≡ sort_of kind }
{
    match kind {
        Kind::Aps => Some(Sort::Protection),
        Kind::OneDm | Kind::TwoDmm | Kind::TwoDmr => Some(Sort::Delay),
        Kind::Basic | Kind::Cv | Kind::Cs => None,
    }
}
