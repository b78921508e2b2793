//! A frame under way, at a sender and at a receiver: overhead and payload as they are packed, and how many blocks are gone or here.
//! No frame is kept as 992 blocks: each is made from, or stored into, the 7,927 bytes that the frame carries.
//! Main promise: in contracts the two are lists of blocks, which lose their first block and gain one at their end.
#![tactic(auto)]

/// The sender's frame.
pub mod outgoing;

/// The receiver's frame.
pub mod incoming;

/// A receiver's frame that is whole.
pub mod whole;

#[cfg(test)]
mod tests {
    use crate::incoming::{Incoming, Misfit};
    use crate::outgoing::{Outgoing, SlotsRefusal};
    use block::{Block, Class, Pair, Sync};
    use numbers::{ClientNumber, FrameNumber, SlotNumber};
    use overhead::{Overhead, OverheadFault};
    use std::test::Fail;

    // The bytes of a data block.
    fn data(bytes: [u8; 8]) -> Block {
        Block {
            sync: Sync::Data,
            bytes,
        }
    }

    // Blocks of one frame, worked out by hand: slot 1 begins at bit 0 of the payload, and data is sent 01.
    #[test]
    fn sent(rt: HostRuntime) -> Result<(), Fail> {
        let pair = Pair {
            first: data([0xFF, 0, 0, 0, 0, 0, 0, 0]),
            second: Block::idle(),
        };
        let overhead = Overhead {
            announced: Some(ClientNumber::try_from(1)?),
            frame: FrameNumber::try_from(0)?,
        };
        let mut outgoing = Outgoing::new();
        assert_eq!(rt; outgoing.next(), None);
        assert_eq!(rt; outgoing.write_pair(SlotNumber::try_from(1)?, pair), Ok(()));
        outgoing.begin(overhead);
        assert_eq!(rt; outgoing.next(), Some(Block::start()));
        assert_eq!(rt; outgoing.next(), Some(data([0, 0, 8, 0, 0, 0, 0xC8, 0xFE])));
        assert_eq!(rt;
            outgoing.write_pair(SlotNumber::try_from(2)?, pair),
            Err(SlotsRefusal::StillSending)
        );
        for _ in 0..989 {
            assert!(rt; outgoing.next().is_some());
        }
        let end = Block {
            sync: Sync::Control,
            bytes: [0xFF, 0, 0, 0, 0, 0, 0, 0],
        };
        assert_eq!(rt; outgoing.next(), Some(end));
        assert_eq!(rt; outgoing.next(), None);
        Ok(())
    }

    // What a receiver does with a block.
    fn take(incoming: &mut Incoming, block: &Block) -> Result<(), Misfit> {
        match block.class() {
            Class::Start => {
                incoming.begin();
                Ok(())
            }
            Class::End(_) => incoming.finish(block),
            _ => incoming.grow(block),
        }
    }

    #[test]
    fn carried(rt: HostRuntime) -> Result<(), Fail> {
        let overhead = Overhead {
            announced: None,
            frame: FrameNumber::try_from(479)?,
        };
        let pair = Pair {
            first: data([1, 2, 3, 4, 5, 6, 7, 8]),
            second: Block::error(),
        };
        let last = SlotNumber::try_from(480)?;
        let mut outgoing = Outgoing::new();
        let mut incoming = Incoming::new();
        assert_eq!(rt; incoming.grow(&data([0; 8])), Err(Misfit::OtherPlace));
        assert_eq!(rt; outgoing.write_pair(last, pair), Ok(()));
        outgoing.begin(overhead);
        for n in 0..992usize {
            assert_eq!(rt; incoming.count(), n);
            assert!(rt; incoming.whole().is_none());
            if let Some(block) = outgoing.next() {
                assert_eq!(rt; take(&mut incoming, &block), Ok(()));
            }
        }
        assert_eq!(rt; incoming.grow(&Block::idle()), Err(Misfit::OtherClass));
        if let Some(frame) = incoming.whole() {
            assert_eq!(rt; frame.overhead(), Ok::<Overhead, OverheadFault>(overhead));
            assert_eq!(rt; frame.pair(last), pair);
            assert_eq!(rt; frame.payload()[0], 0);
        }
        incoming.clear();
        assert_eq!(rt; incoming.count(), 0);
        Ok(())
    }
}
