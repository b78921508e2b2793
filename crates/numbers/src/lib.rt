//! Client numbers, slot numbers and frame numbers, each a type of its own, so that none is taken for another.
//! In contracts each is its number. A client or slot number runs from 1 to 480, a frame number from 0 to 479.
//! Main promise: `try_from` answers exactly the numbers in range, and refuses all others; `all` gives each number once, by rising number.
#![tactic(auto)]

// Structs of one shape: one type over a range and a tag, as `Number<1, 480, Client>`, would be written out at each use and in each error.
mod client;
mod frame;
mod slot;

pub use client::{ClientNumber, Clients};
pub use frame::FrameNumber;
pub use slot::{SlotNumber, Slots};

/// Slots of a frame and of a calendar, frames of a multiframe, and so clients at most.
pub const SLOTS: usize = 480;

// The highest client or slot number, and the highest frame number.
const LAST: u16 = SLOTS as u16;

const LAST_FRAME: u16 = LAST - 1;

#[cfg(test)]
mod tests {
    use super::*;

    #[test]
    fn walks(rt: HostRuntime) {
        let mut slots = 0;
        for slot in SlotNumber::all() {
            assert_eq!(rt; slot.index(), slots);
            assert_eq!(rt; SlotNumber::from_index(slots), Some(slot));
            slots += 1;
        }
        assert_eq!(rt; slots, SLOTS);
        let mut clients = 0;
        for client in ClientNumber::all() {
            assert_eq!(rt; client.index(), clients);
            assert_eq!(rt; ClientNumber::from_index(clients), Some(client));
            clients += 1;
        }
        assert_eq!(rt; clients, SLOTS);
        assert_eq!(rt; SlotNumber::from_index(SLOTS), None);
        assert_eq!(rt; ClientNumber::from_index(SLOTS), None);
    }

    #[test]
    fn frames(rt: HostRuntime) {
        let mut frame = FrameNumber::first();
        for number in 0..480u16 {
            assert_eq!(rt; frame.number(), number);
            frame = frame.next();
        }
        assert_eq!(rt; frame, FrameNumber::first());
    }
}
