//! Frame numbers, which go on from the last of a multiframe to the first.

ghost use Rattle.std.specs.Prelude.{◌≡◌, ◌+◌, ◌<◌, IfOk};
ghost use Rattle.numbers.specs.Range.{IsOneTo480, checked_frame_number, slots};
ghost use Rattle.numbers.specs.Walk.{next_frame_number};

use crate::{LAST_FRAME, SlotNumber};
use refusal::Refusal;
use std::marker::Model;

/// A frame's number in its multiframe, 0 to 479.
#[derive(Clone, Copy, Debug, PartialEq, Eq)]
pub struct FrameNumber {
    number: u16,
}

impl Model for FrameNumber {
    ghost use Rattle.std.specs.Prelude.{ℕ, ◌<◌};
    ghost use Rattle.numbers.specs.Range.{slots};

    ghost Value = { ℕ };

    ghost view = { λ f. f.number };

    ghost invariant = { λ f. f.number < slots };

    ghost inverse = { λ n. record { number = n } };
}

impl TryFrom<u16> for FrameNumber {
    type Error = Refusal;

    ghost try_from_gives = { λ n r. r ≡ checked_frame_number n };

    /// Refuses with `OutOfRange` what is no frame number.
    fn try_from(number: u16) -> Result<FrameNumber, Refusal>
        ensures value { result ≡ checked_frame_number number }
        ensures range { IfOk result (λ frame. frame < slots) }
    {
        match number {
            0..=LAST_FRAME => Ok(FrameNumber { number }),
            _ => Err(Refusal::OutOfRange),
        }
    }
}

impl FrameNumber {
    /// The first frame of a multiframe, number 0.
    pub fn first() -> FrameNumber
        ensures value { result ≡ 0 }
    {
        FrameNumber { number: 0 }
    }

    /// The number, 0 to 479.
    pub fn number(self) -> u16
        ensures value { result ≡ self }
        ensures range { self < slots }
    {
        self.number
    }

    /// The number of the frame that is sent next; after 479 comes 0.
    pub fn next(self) -> FrameNumber
        ensures value { result ≡ next_frame_number self }
        ensures own_range { self < slots }
        ensures range { result < slots }
    {
        match self.number {
            LAST_FRAME => FrameNumber::first(),
            number => FrameNumber { number: number + 1 },
        }
    }

    /// The slot whose client a frame of this number announces.
    pub fn slot(self) -> SlotNumber
        ensures value { result ≡ self + 1 }
        ensures own_range { self < slots }
        ensures range { IsOneTo480 result }
    {
        SlotNumber::numbered(self.number + 1)
    }
}
