//! Tests of the program `pack` by its text: blocks read from lines, frames from blocks, and the packets' blocks from their slots.
#![tactic(auto)]

#[cfg(test)]
mod tests {
    use block::Block;
    use calendar::Calendar;
    use client_queues::ClientQueues;
    use numbers::{ClientNumber, SlotNumber};
    use payload::Payload;
    use progress::Goal;
    use std::test::Fail;
    use transmission::Transmission;

    // The next block of the line, by way of its text.
    fn next_read(line: &mut Transmission) -> Result<Block, Fail> {
        let block = line.next_block().ok_or("the line has ended")?;
        let text = block_text::write(block);
        Ok(block_text::read(&text).ok().ok_or("no line of a block")?)
    }

    // The number of the next frame of the line, whose payload goes to the places.
    fn next_frame(line: &mut Transmission, payload: &mut Payload) -> Result<u16, Fail> {
        let mut blocks = [Block::idle(); 992];
        for block in blocks.iter_mut() {
            *block = next_read(line)?;
        }
        let overhead = whole_frame::read_frame(&blocks, payload)
            .ok()
            .ok_or("no frame")?;
        Ok(overhead.frame.number())
    }

    // The first bytes of both blocks of a slot, behind the type of a control block.
    fn seconds(payload: &Payload, slot: SlotNumber) -> (u8, u8) {
        let pair = payload::read_pair(payload, slot);
        (pair.first.bytes[1], pair.second.bytes[1])
    }

    // Client 7 has slots 1 to 4 and 480: ten of its blocks go in a frame.
    fn line(rt: &impl AllocGlobal) -> Result<Transmission, Fail> {
        let client = ClientNumber::try_from(7)?;
        let mut calendar = Calendar::empty();
        for number in [1, 2, 3, 4, 480] {
            calendar.assign(SlotNumber::try_from(number)?, client);
        }
        let mut queues = ClientQueues::new(rt.alloc())?;
        let bytes: [u8; 104] = std::array::from_fn(|i| i as u8);
        queues.add(client, &bytes).ok().ok_or("not added")?;
        Ok(Transmission::new(calendar, queues, Goal::Frames(2)))
    }

    #[test]
    fn two_frames(rt: HostRuntime) -> Result<(), Fail> {
        let mut line = line(&rt)?;
        let mut payload = [0; 7920];
        assert_eq!(rt; next_frame(&mut line, &mut payload)?, 0);
        assert_eq!(rt; seconds(&payload, SlotNumber::try_from(1)?), (0x55, 1));
        assert_eq!(rt; seconds(&payload, SlotNumber::try_from(4)?), (41, 49));
        assert_eq!(rt; seconds(&payload, SlotNumber::try_from(480)?), (57, 65));
        assert_eq!(rt; line.unsent(), 6);
        let gap = next_read(&mut line)?;
        assert!(rt; !gap.is_start() && !gap.is_end());
        assert_eq!(rt; next_frame(&mut line, &mut payload)?, 1);
        assert_eq!(rt; seconds(&payload, SlotNumber::try_from(2)?), (89, 97));
        assert_eq!(rt; seconds(&payload, SlotNumber::try_from(3)?), (0, 0));
        assert_eq!(rt; line.unsent(), 0);
        assert!(rt; line.next_block().is_none());
        Ok(())
    }
}
