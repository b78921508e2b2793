//! The sender's state. Its calls stand in a file of their own.

use calendar::Calendar;
use numbers::FrameNumber;
use schedule::Position;
use std::marker::Model;
use under_way::outgoing::Outgoing;
use waiting::LeftMessages;

/// A sender: what it is made from, the frame under way, where it stands in the schedule, and the messages that wait.
#[derive(Drop)]
pub struct Sender {
    pub(crate) calendar: Calendar,
    // of the CV message
    pub(crate) trail: [u8; 32],
    pub(crate) frame: Outgoing,
    // of the next item
    pub(crate) position: Position,
    // of the next frame
    pub(crate) number: FrameNumber,
    pub(crate) messages: LeftMessages,
}

impl Model for Sender {
    ghost use Rattle.std.specs.Prelude.{◌≡◌, length};
    ghost use Rattle.sending.specs.Sender.{Sender as Seen};
    ghost use Rattle.calendar.specs.Entries.{entries_of};

    ghost Value = { Seen };

    ghost view = { λ s. record { made = record { calendar = entries_of s.calendar; trail = s.trail }; state = record { rest = s.frame.rest; position = s.position; number = s.number; left = s.messages } } };

    ghost invariant = { λ s. length s.trail ≡ 32 };
}
