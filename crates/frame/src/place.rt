//! The place of a block in its frame, from 1, the start block, to 992, the end block. In contracts it is its number.
ghost use Rattle.std.specs.Prelude.{◌≡◌, ◌+◌, ◌<◌, ◌≤◌, IfSome};
ghost use Rattle.frame.specs.Places.{IsPlace, checked_place, frame_blocks, next_place, place_behind};

use refusal::Refusal;
use std::marker::Model;

// Of the shape of the types in `numbers`, for the reason given there.
/// A block's place in its frame, 1 to 992.
#[derive(Clone, Copy, Debug, PartialEq, Eq)]
pub struct FramePlace {
    // a whole word, since the places of bytes are counted from it
    number: usize,
}

impl Model for FramePlace {
    ghost use Rattle.std.specs.Prelude.{ℕ};
    ghost use Rattle.frame.specs.Places.{IsPlace};

    ghost Value = { ℕ };

    ghost view = { λ p. p.number };

    ghost invariant = { λ p. IsPlace p.number };

    ghost inverse = { λ n. record { number = n } };
}

impl TryFrom<u16> for FramePlace {
    type Error = Refusal;

    ghost try_from_gives = { λ n r. r ≡ checked_place n };

    /// Refuses with `OutOfRange` what is no place.
    fn try_from(number: u16) -> Result<FramePlace, Refusal> {
        match number {
            1..=992 => Ok(FramePlace {
                number: number as usize,
            }),
            _ => Err(Refusal::OutOfRange),
        }
    }
}

impl FramePlace {
    /// The place of the start block.
    pub fn first() -> FramePlace
        ensures { result ≡ 1 }
    {
        FramePlace { number: 1 }
    }

    /// The place of the end block.
    pub fn last() -> FramePlace
        ensures { result ≡ frame_blocks }
    {
        FramePlace { number: 992 }
    }

    /// The place behind this one, none behind the end block's.
    pub fn next(self) -> Option<FramePlace>
        ensures value { result ≡ next_place self }
        ensures range { IfSome result IsPlace }
    {
        match self.number {
            992 => None,
            number => Some(FramePlace { number: number + 1 }),
        }
    }

    /// The number, 1 to 992.
    pub fn number(self) -> u16
        ensures value { result ≡ self }
        ensures range { IsPlace self }
    {
        self.number as u16
    }

    // The number, as a count of blocks.
    pub(crate) fn position(self) -> usize
        ensures value { result ≡ self }
        ensures range { IsPlace self }
    {
        self.number
    }

    /// The place behind so many blocks of a frame, none where they are all.
    pub fn behind(count: usize) -> Option<FramePlace>
        ensures { result ≡ place_behind count }
    {
        if count < 992 {
            Some(FramePlace::of_index(count))
        } else {
            None
        }
    }

    // The place of the block with this index among its frame's.
    pub(crate) fn of_index(index: usize) -> FramePlace
        requires { index < 992 }
        ensures { result ≡ index + 1 }
    {
        FramePlace { number: index + 1 }
    }
}
