//! A position in a sender's life: the cycle and the place in it, which come round after 128 cycles.

ghost use Rattle.std.specs.Prelude.{◌≡◌, ◌<◌, ◌≤◌};
ghost use Rattle.schedule.specs.Cycle.{BlockInRange, basic_mark, item_at, item_in, low_priority, next_position, opportunity, round_items};

use crate::Item;
use message::Mark;
use std::marker::Model;

/// Where a sender stands: how many items it has begun, counted round from 0 to 8,319 (128 cycles of 65 items).
#[derive(Clone, Copy, Debug, PartialEq, Eq)]
pub struct Position {
    cycle: u8,
    place: u8,
}

impl Model for Position {
    ghost use Rattle.std.specs.Prelude.{ℕ, ◌+◌, ◌*◌, ◌/◌, ◌%◌, ◌<◌};
    ghost use Rattle.std.proofs.Common.{arith};

    ghost Value = { ℕ };

    ghost view = { λ p. 65 * p.cycle + p.place };

    ghost invariant = { λ p. (p.cycle < 128) × (p.place < 65) };

    ghost inverse = { λ n. record { cycle = n / 65; place = n % 65 } };

    ghost inverse_ok = { λ p h. Prim.grind arith };
}

impl Position {
    /// The position of the first item of a sender's life.
    pub fn first() -> Position
        ensures { result ≡ 0 }
    {
        Position { cycle: 0, place: 0 }
    }

    /// What stands here.
    #[tactic(auto, using(crate::proofs::Items::item_in_place))]
    pub fn item(self) -> Item
        ensures value { result ≡ item_at self }
        ensures block { BlockInRange result }
        ensures own_range { self < round_items }
    {
        item_in(self.cycle, self.place)
    }

    /// The position behind this one; behind the last of 128 cycles comes the first.
    pub fn next(self) -> Position
        ensures value { result ≡ next_position self }
        ensures own_range { self < round_items }
        ensures range { result < round_items }
    {
        match (self.cycle, self.place) {
            (127, 64) => Position::first(),
            (cycle, 64) => Position {
                cycle: cycle + 1,
                place: 0,
            },
            (cycle, place) => Position {
                cycle,
                place: place + 1,
            },
        }
    }
}

// What stands at a place of a cycle.
fn item_in(cycle: u8, place: u8) -> Item
    requires { cycle < 128 }
    ensures value { result ≡ item_in cycle place }
    ensures block { BlockInRange result }
{
    match place {
        place if place % 2 == 0 => Item::Frame,
        1 => Item::Basic(mark(cycle)),
        35 => opportunity(cycle),
        _ => Item::Idle,
    }
}

// The mark of a cycle's basic message: the start mark before a protection opportunity.
fn mark(cycle: u8) -> Mark
    ensures { result ≡ basic_mark cycle }
{
    match cycle % 2 {
        0 => Mark::Start,
        _ => Mark::End,
    }
}

// A cycle's opportunity: protection in every other one, from the first on.
fn opportunity(cycle: u8) -> Item
    requires { cycle < 128 }
    ensures value { result ≡ opportunity cycle }
    ensures block { BlockInRange result }
{
    match cycle % 2 {
        0 => Item::Protection,
        _ => low_priority(cycle / 2 + 1),
    }
}

// What stands at a low priority opportunity, by its number.
fn low_priority(number: u8) -> Item
    requires { 1 ≤ number }
    ensures value { result ≡ low_priority number }
    ensures block { BlockInRange result }
{
    match number {
        1..=17 => Item::Verification(number - 1),
        18 => Item::ClientSignal,
        19..=31 => Item::Delay(number - 19),
        _ => Item::Spare,
    }
}

#[cfg(test)]
mod tests {
    use super::*;

    // The position so many items behind this one.
    fn behind(position: Position, items: usize) -> Position {
        let mut position = position;
        for _ in 0..items {
            position = position.next();
        }
        position
    }

    // A letter for an item.
    fn letter(item: Item) -> u8 {
        match item {
            Item::Frame => b'F',
            Item::Idle => b'.',
            Item::Basic(Mark::Start) => b's',
            Item::Basic(Mark::End) => b'e',
            Item::Protection => b'p',
            Item::Verification(_) => b'v',
            Item::ClientSignal => b'c',
            Item::Delay(_) => b'd',
            Item::Spare => b'-',
        }
    }

    #[test]
    fn two_cycles(rt: HostRuntime) {
        let cycles =
            b"FsF.F.F.F.F.F.F.F.F.F.F.F.F.F.F.F.FpF.F.F.F.F.F.F.F.F.F.F.F.F.F.FFeF.F.F.F.F.F.F.F.F.F.F.F.F.F.F.F.FvF.F.F.F.F.F.F.F.F.F.F.F.F.F.F";
        let mut position = Position::first();
        for expected in cycles {
            assert_eq!(rt; letter(position.item()), *expected);
            position = position.next();
        }
    }

    #[test]
    fn two_rounds_of_low_priority_opportunities(rt: HostRuntime) {
        let round = b"vvvvvvvvvvvvvvvvvcddddddddddddd---------------------------------";
        let mut position = behind(Position::first(), 100);
        for _ in 0..2 {
            for expected in round {
                assert_eq!(rt; letter(position.item()), *expected);
                position = behind(position, 130);
            }
        }
    }

    #[test]
    fn first_and_last_blocks(rt: HostRuntime) {
        let first = behind(Position::first(), 100);
        assert_eq!(rt; first.item(), Item::Verification(0));
        assert_eq!(rt; behind(first, 16 * 130).item(), Item::Verification(16));
        assert_eq!(rt; behind(first, 17 * 130).item(), Item::ClientSignal);
        assert_eq!(rt; behind(first, 18 * 130).item(), Item::Delay(0));
        assert_eq!(rt; behind(first, 30 * 130).item(), Item::Delay(12));
        assert_eq!(rt; behind(first, 31 * 130).item(), Item::Spare);
        assert_eq!(rt; behind(first, 64 * 130).item(), Item::Verification(0));
    }
}
