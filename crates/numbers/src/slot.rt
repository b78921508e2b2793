//! Slot numbers, and all slots by rising number.

ghost use Rattle.std.specs.Prelude.{◌≡◌, ◌+◌, ◌<◌, IfOk, IfSome};
ghost use Rattle.std.specs.Iterator.{YieldsFirst, item_count};
ghost use Rattle.numbers.specs.Range.{IsOneTo480, checked_number, number_at, slots};
ghost use Rattle.numbers.specs.Walk.{numbers_between};

use crate::{LAST, SLOTS};
use refusal::Refusal;
use std::marker::Model;

/// A slot's number, 1 to 480.
#[derive(Clone, Copy, Debug, PartialEq, Eq)]
pub struct SlotNumber {
    number: u16,
}

impl Model for SlotNumber {
    ghost use Rattle.std.specs.Prelude.{ℕ};
    ghost use Rattle.numbers.specs.Range.{IsOneTo480};

    ghost Value = { ℕ };

    ghost view = { λ s. s.number };

    ghost invariant = { λ s. IsOneTo480 s.number };

    ghost inverse = { λ n. record { number = n } };
}

impl TryFrom<u16> for SlotNumber {
    type Error = Refusal;

    ghost try_from_gives = { λ n r. r ≡ checked_number n };

    /// Refuses with `OutOfRange` what is no slot number.
    fn try_from(number: u16) -> Result<SlotNumber, Refusal>
        ensures value { result ≡ checked_number number }
        ensures range { IfOk result IsOneTo480 }
    {
        match number {
            1..=LAST => Ok(SlotNumber { number }),
            _ => Err(Refusal::OutOfRange),
        }
    }
}

impl SlotNumber {
    /// The number, 1 to 480.
    pub fn number(self) -> u16
        ensures value { result ≡ self }
        ensures range { IsOneTo480 self }
    {
        self.number
    }

    // The slot with a number that is known to be in range.
    pub(crate) fn numbered(number: u16) -> SlotNumber
        requires { IsOneTo480 number }
        ensures { result ≡ number }
    {
        SlotNumber { number }
    }

    /// All slots, by rising number.
    pub fn all() -> Slots
        ensures { result ≡ numbers_between 1 slots }
    {
        Slots {
            next: 1,
            last: LAST,
        }
    }

    /// The slots from this one to another, both included, by rising number; none where the other is lower.
    pub fn to(self, last: SlotNumber) -> Slots
        ensures value { result ≡ numbers_between self last }
        ensures range { IsOneTo480 self × IsOneTo480 last }
    {
        Slots {
            next: self.number,
            last: last.number,
        }
    }

    /// The slot's place in a calendar, from 0.
    pub fn index(self) -> usize
        ensures value { result + 1 ≡ self }
        ensures high { result < slots }
        ensures range { IsOneTo480 self }
    {
        self.number as usize - 1
    }

    /// The slot at a place of a calendar; none at place 480 and behind.
    pub fn from_index(index: usize) -> Option<SlotNumber>
        ensures value { result ≡ number_at index }
        ensures range { IfSome result IsOneTo480 }
    {
        if index < SLOTS {
            Some(SlotNumber {
                number: index as u16 + 1,
            })
        } else {
            None
        }
    }
}

/// Slots by rising number, up to a last one.
#[derive(Clone, Debug, Drop)]
pub struct Slots {
    next: u16,
    last: u16,
}

impl Model for Slots {
    ghost use Rattle.std.specs.Prelude.{ℕ, ◌≤◌, List};
    ghost use Rattle.numbers.specs.Range.{slots};
    ghost use Rattle.numbers.specs.Walk.{numbers_between};

    ghost Value = { List ℕ };

    ghost view = { λ s. numbers_between s.next s.last };

    ghost invariant = { λ s. (1 ≤ s.next) × (s.last ≤ slots) };
}

impl Iterator for Slots {
    type Item = SlotNumber;

    ghost next_gives = { YieldsFirst (λ s. s) };

    ghost remaining = { item_count (λ s. s) };

    #[tactic(auto, using(crate::proofs::Walks::numbers_between_next, crate::proofs::Walks::numbers_between_end))]
    fn next(&mut self) -> Option<SlotNumber> {
        if self.next > self.last {
            return None;
        }
        let slot = SlotNumber { number: self.next };
        self.next += 1;
        Some(slot)
    }
}
