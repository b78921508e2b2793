//! Worked examples of a sender's life, as tables: what it sends at which place, what is refused, and when a message that was left goes.
//! Expected values are the standard's test vectors for 1DM, and others worked out by the formats.
//! Main promise: none of its own; each table is run against the crate `sender`.
#![tactic(auto)]

#[cfg(test)]
mod tests {
    use bank::Bank;
    use block::{Block, Pair, Sync};
    use calendar::Calendar;
    use message::Kind;
    use numbers::{ClientNumber, FrameNumber, SlotNumber};
    use overhead::{Overhead, OverheadFault};
    use port::Outlet;
    use refusal::Refusal;
    use sender::Sender;
    use std::process::Abort;
    use std::test::Fail;

    // The blocks of 18 frames with the gap behind each, and of a cycle: 33 frames with 32 gaps.
    const TO_FIRST_OPPORTUNITY: usize = 18 * 993;

    const CYCLE: usize = 33 * 992 + 32;

    const INVALID: Result<(), Refusal> = Err(Refusal::MessageInvalid);

    const WAITS: Result<(), Refusal> = Err(Refusal::MessageWaits);

    // The times of the standard's two 1DM messages.
    const FIRST_TIME: [u8; 10] = [0x37, 0x9A, 0x05, 0x51, 0x91, 0x52, 0x35, 0x98, 0, 0];

    const SECOND_TIME: [u8; 10] = [0x35, 0x98, 0x14, 0x75, 0x91, 0x50, 0x35, 0x98, 0, 0];

    // A message block with this head and these values.
    fn part(head: u8, first: u8, second: u8) -> Block {
        Block {
            sync: Sync::Control,
            bytes: [0x4B, head, first, second, 0x0C, 0, 0, 0],
        }
    }

    // Block `number` of the standard's first 1DM, counted from 0; idles behind the last.
    fn first_delay(number: u8) -> Block {
        match number {
            0 => part(0xD5, 0x37, 0x9A),
            1 => part(0xD4, 0x05, 0x51),
            2 => part(0xD4, 0x91, 0x52),
            3 => part(0xD4, 0x35, 0x98),
            4 => part(0xD6, 0xE0, 0x95),
            _ => Block::idle(),
        }
    }

    // Block `number` of the second.
    fn second_delay(number: u8) -> Block {
        match number {
            0 => part(0xD5, 0x35, 0x98),
            1 => part(0xD4, 0x14, 0x75),
            2 => part(0xD4, 0x91, 0x50),
            3 => part(0xD4, 0x35, 0x98),
            4 => part(0xD6, 0x50, 0x44),
            _ => Block::idle(),
        }
    }

    // The trail bytes 1 to 32.
    fn trail() -> [u8; 32] {
        [
            1, 2, 3, 4, 5, 6, 7, 8, 9, 10, 11, 12, 13, 14, 15, 16, 17, 18, 19, 20, 21, 22, 23, 24,
            25, 26, 27, 28, 29, 30, 31, 32,
        ]
    }

    // Block `number`, 0 to 16, of the CV message over them.
    fn verification(number: u8) -> Block {
        match number {
            0 => part(0xCD, 1, 2),
            16 => part(0xCE, 0xC0, 0x94),
            // below 16
            number => part(0xCC, 2 * (number % 16) + 1, 2 * (number % 16) + 2),
        }
    }

    // Client 1 has slots 1 and 480, client 480 slot 2.
    fn three_leases() -> Result<Calendar, Fail> {
        let mut calendar = Calendar::empty();
        calendar.assign(SlotNumber::try_from(1)?, ClientNumber::try_from(1)?);
        calendar.assign(SlotNumber::try_from(2)?, ClientNumber::try_from(480)?);
        calendar.assign(SlotNumber::try_from(480)?, ClientNumber::try_from(1)?);
        Ok(calendar)
    }

    // Sends blocks, and answers the last of them.
    fn last_of(sender: &mut Sender, bank: &mut Bank, sends: usize) -> Block {
        let mut block = Block::idle();
        for _ in 0..sends {
            block = sender.send(bank);
        }
        block
    }

    // Sends a frame, of which the first two blocks are looked at: the second has the overhead.
    fn frame(
        rt: &impl Abort,
        sender: &mut Sender,
        bank: &mut Bank,
        announced: Option<ClientNumber>,
        frame: FrameNumber,
    ) {
        assert_eq!(rt; sender.send(bank), Block::start());
        let [a, b, c, d, e, f, g, _] = sender.send(bank).bytes;
        assert_eq!(rt;
            Overhead::read(&[a, b, c, d, e, f, g]),
            Ok::<Overhead, OverheadFault>(Overhead { announced, frame })
        );
        let end = last_of(sender, bank, 990);
        assert_eq!(rt; end.sync, Sync::Control);
        assert_eq!(rt; end.bytes[0], 0xFF);
    }

    // What stands behind frame `place`, 1 to 32, of the first and of the second cycle.
    fn gap(cycle: u8, place: u8) -> Block {
        match (cycle, place) {
            (0, 1) => part(0x3D, 0, 0),
            (1, 1) => part(0x3E, 0, 0),
            (1, 18) => verification(0),
            _ => Block::idle(),
        }
    }

    #[test]
    fn two_cycles(rt: HostRuntime) -> Result<(), Fail> {
        let calendar = three_leases()?;
        let mut memory = [Block::idle(); 4];
        let mut bank = Bank::new(&mut memory, 2);
        let mut sender = Sender::new(calendar, trail());
        let mut number = FrameNumber::first();
        for cycle in 0..2u8 {
            for place in 1..34u8 {
                frame(
                    &rt,
                    &mut sender,
                    &mut bank,
                    calendar.client(number.slot()),
                    number,
                );
                number = number.next();
                if place < 33 {
                    assert_eq!(rt; sender.send(&mut bank), gap(cycle, place));
                }
            }
        }
        Ok(())
    }

    // The first data block of a frame in which slot 1 holds the pair that waited, and of the next, for which no pair waits: the payload's
    // first byte has the sync bits and the first six of byte 0, and data is sent 01.
    #[test]
    fn first_slot(rt: HostRuntime) -> Result<(), Fail> {
        let mut memory = [Block::idle(); 4];
        let mut bank = Bank::new(&mut memory, 2);
        let pair = Pair {
            first: Block {
                sync: Sync::Data,
                bytes: [0xFF, 0, 0, 0, 0, 0, 0, 0],
            },
            second: Block::idle(),
        };
        if let Some(client) = ClientNumber::from_index(0) {
            assert_eq!(rt; bank.put(client, pair), Ok(()));
        }
        let mut sender = Sender::new(three_leases()?, [0; 32]);
        assert_eq!(rt; sender.send(&mut bank), Block::start());
        let first = sender.send(&mut bank);
        assert_eq!(rt; first.sync, Sync::Data);
        assert_eq!(rt; first.bytes, [0, 0, 8, 0, 0, 0, 0xC8, 0xFE]);
        let next = last_of(&mut sender, &mut bank, 993);
        assert_eq!(rt; next.sync, Sync::Data);
        assert_eq!(rt; next.bytes[7], 0x79);
        Ok(())
    }

    // What stands at low priority opportunity `number`, 1 to 64, of the first and of the second round: the first 1DM waits from the beginning,
    // the second from behind opportunity 24 of the first round.
    fn low_priority(round: u8, number: u8) -> Block {
        match (round, number) {
            (_, 1..=17) => verification(number - 1),
            (_, 18) => part(0xDB, 0x03, 0x1E),
            (0, 19..=31) => first_delay(number - 19),
            (1, 19..=31) => second_delay(number - 19),
            _ => Block::idle(),
        }
    }

    // What is left behind an opportunity of the first round, and what that answers.
    fn leave_behind(rt: &impl Abort, sender: &mut Sender, round: u8, number: u8) {
        match (round, number) {
            // the first is on its way, up to its last block
            (0, 18..=22) => {
                assert_eq!(rt; sender.leave(Kind::OneDm, &SECOND_TIME), WAITS);
            }
            (0, 24) => {
                assert_eq!(rt; sender.leave(Kind::OneDm, &SECOND_TIME), Ok(()));
            }
            _ => (),
        }
    }

    #[test]
    fn two_rounds_of_low_priority(rt: HostRuntime) {
        let mut memory = [Block::idle(); 2];
        let mut bank = Bank::new(&mut memory, 2);
        let mut sender = Sender::new(Calendar::empty(), trail());
        assert_eq!(rt; sender.leave(Kind::OneDm, &FIRST_TIME), Ok(()));
        let mut protection = last_of(&mut sender, &mut bank, TO_FIRST_OPPORTUNITY);
        for round in 0..2u8 {
            for number in 1..65u8 {
                assert_eq!(rt; protection, Block::idle());
                let block = last_of(&mut sender, &mut bank, CYCLE);
                assert_eq!(rt; block, low_priority(round, number), "{round} {number}");
                leave_behind(&rt, &mut sender, round, number);
                protection = last_of(&mut sender, &mut bank, CYCLE);
            }
        }
    }

    // An APS message goes at the next protection opportunities, and another may be left once its last block has gone.
    #[test]
    fn protection(rt: HostRuntime) {
        let mut memory = [Block::idle(); 2];
        let mut bank = Bank::new(&mut memory, 2);
        let mut sender = Sender::new(Calendar::empty(), trail());
        let values = [0x12, 0x34, 0, 0];
        let none = last_of(&mut sender, &mut bank, TO_FIRST_OPPORTUNITY);
        assert_eq!(rt; none, Block::idle());
        assert_eq!(rt; sender.leave(Kind::Aps, &values), Ok(()));
        let sent = [
            (verification(0), WAITS),
            (part(0x45, 0x12, 0x34), WAITS),
            (verification(1), WAITS),
            (part(0x46, 0x10, 0xA5), Ok(())),
            (verification(2), WAITS),
            (part(0x45, 0x12, 0x34), WAITS),
        ];
        for (expected, answer) in sent {
            assert_eq!(rt; last_of(&mut sender, &mut bank, CYCLE), expected);
            assert_eq!(rt; sender.leave(Kind::Aps, &values), answer);
        }
    }

    // A code, how many value bytes are given, the last but one of them, where all others are zero, and the answer.
    #[test]
    fn refusals(rt: HostRuntime) {
        let mut sender = Sender::new(Calendar::empty(), [0; 32]);
        let table = [
            // basic
            (0x0F, 2, 0, INVALID),
            // no kind's code
            (0x12, 4, 0, INVALID),
            // CV and CS, which are the sender's own
            (0x33, 34, 0, INVALID),
            (0x36, 2, 0, INVALID),
            // another length
            (0x11, 3, 0, INVALID),
            (0x11, 6, 0, INVALID),
            (0x35, 26, 0, INVALID),
            (0x30, 10, 0, INVALID),
            // a bit set in the places of the remainder, and among the zeros above them
            (0x11, 4, 0x80, INVALID),
            (0x39, 10, 0x01, INVALID),
            // APS, and another while it waits; what is not lawful is refused as that
            (0x11, 4, 0, Ok(())),
            (0x11, 4, 0, WAITS),
            (0x11, 4, 0x80, INVALID),
            (0x33, 34, 0, INVALID),
            // of the other sort none waits yet
            (0x30, 26, 0, Ok(())),
            (0x35, 10, 0, WAITS),
            (0x39, 10, 0, WAITS),
            (0x30, 26, 0, WAITS),
            (0x30, 25, 0, INVALID),
        ];
        for (code, length, last, answer) in table {
            let mut values = [0u8; 34];
            assert!(rt; 2 <= length && length <= 34);
            values[length - 2] = last;
            assert_eq!(rt;
                sender.leave_code(code, &values[..length]),
                answer,
                "{code} {length}"
            );
        }
    }
}
