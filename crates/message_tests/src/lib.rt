//! Examples of path messages, written and collected, as tables.
//! Expected are the standard's test vectors for 1DM, their blocks worked out by the format, the block of CS with payload type 11, and others
//! worked by hand.
//! Main promise: none of its own; each table is run against the crates `message` and `collector`.
#![tactic(auto)]

#[cfg(test)]
mod tests {
    use block::{Block, Sync};
    use collector::{BlockError, Collector, Report};
    use message::{Kind, Mark, basic, read, write, write_code};
    use refusal::Refusal;
    use std::process::Abort;
    use std::test::Fail;

    // A message block with this head and these values.
    fn part(head: u8, first: u8, second: u8) -> Block {
        Block {
            sync: Sync::Control,
            bytes: [0x4B, head, first, second, 0x0C, 0, 0, 0],
        }
    }

    // The first test vector: its five blocks.
    fn vector() -> [Block; 5] {
        [
            part(0xD5, 0x37, 0x9A),
            part(0xD4, 0x05, 0x51),
            part(0xD4, 0x91, 0x52),
            part(0xD4, 0x35, 0x98),
            part(0xD6, 0xE0, 0x95),
        ]
    }

    fn feed(collector: &mut Collector, block: Block) -> Report {
        match read(&block) {
            Some(said) => collector.take(said),
            None => Report {
                broken: false,
                found: Ok(None),
            },
        }
    }

    // A block after the other, with what is reported of each.
    fn run(
        rt: &impl Abort,
        collector: &mut Collector,
        table: &[(Block, bool, Result<Option<Kind>, BlockError>)],
    ) {
        for (block, broken, found) in table {
            assert_eq!(rt;
                feed(collector, *block),
                Report {
                    broken: *broken,
                    found: *found,
                }
            );
        }
    }

    #[test]
    fn vectors(rt: HostRuntime) {
        let mut output = [Block::idle(); 6];
        assert_eq!(rt;
            write(
                Kind::OneDm,
                &[0x37, 0x9A, 0x05, 0x51, 0x91, 0x52, 0x35, 0x98, 0, 0],
                &mut output,
            ),
            Ok(5)
        );
        for (made, expected) in output.iter().zip(vector().iter()) {
            assert_eq!(rt; *made, *expected);
        }
        assert_eq!(rt; output[5], Block::idle());
        let second = [
            part(0xD5, 0x35, 0x98),
            part(0xD4, 0x14, 0x75),
            part(0xD4, 0x91, 0x50),
            part(0xD4, 0x35, 0x98),
            part(0xD6, 0x50, 0x44),
        ];
        assert_eq!(rt;
            write_code(
                0x35,
                &[0x35, 0x98, 0x14, 0x75, 0x91, 0x50, 0x35, 0x98, 0, 0],
                &mut output,
            ),
            Ok(5)
        );
        for (made, expected) in output.iter().zip(second.iter()) {
            assert_eq!(rt; *made, *expected);
        }
        assert_eq!(rt; write(Kind::Cs, &[3, 0], &mut output), Ok(1));
        assert_eq!(rt; output[0], part(0xDB, 0x03, 0x1E));
        assert_eq!(rt; basic(Mark::Start), part(0x3D, 0, 0));
        assert_eq!(rt; basic(Mark::End), part(0x3E, 0, 0));
    }

    // Value bytes that are refused, and the output as before.
    fn refused(rt: &impl Abort, code: u8, values: [u8; 4]) {
        let mut output = [Block::idle(); 4];
        assert_eq!(rt;
            write_code(code, &values, &mut output),
            Err(Refusal::MessageInvalid)
        );
        for block in output {
            assert_eq!(rt; block, Block::idle());
        }
    }

    #[test]
    fn refusals(rt: HostRuntime) {
        for (code, values) in [
            // a basic and an unknown kind
            (0x0F, [0, 0, 0, 0]),
            (0x21, [0, 0, 0, 0]),
            // another length, also where the output is too short
            (0x36, [0, 0, 0, 0]),
            (0x35, [0, 0, 0, 0]),
            // bits set before the remainder and in its places
            (0x11, [0, 0, 0x01, 0]),
            (0x11, [0, 0, 0x08, 0]),
            (0x11, [0, 0, 0x10, 0]),
            (0x11, [0, 0, 0, 0x80]),
        ] {
            refused(&rt, code, values);
        }
        let mut output = [Block::idle(); 4];
        assert_eq!(rt;
            write(Kind::Cs, &[4, 0], &mut output),
            Err(Refusal::MessageInvalid)
        );
        assert_eq!(rt;
            write(Kind::TwoDmm, &[0; 10], &mut output),
            Err(Refusal::OutputTooShort)
        );
        for block in output {
            assert_eq!(rt; block, Block::idle());
        }
    }

    #[test]
    fn reading(rt: HostRuntime) {
        for (sync, bytes, is_message) in [
            (Sync::Control, [0x4B, 0xDB, 3, 0x1E, 0x0C, 0, 0, 0], true),
            (Sync::Control, [0x4B, 0xDB, 3, 0x1E, 0xFC, 1, 2, 3], true),
            (Sync::Control, [0x4B, 0xDB, 3, 0x1E, 0x0D, 0, 0, 0], false),
            (Sync::Control, [0x4C, 0xDB, 3, 0x1E, 0x0C, 0, 0, 0], false),
            (Sync::Data, [0x4B, 0xDB, 3, 0x1E, 0x0C, 0, 0, 0], false),
        ] {
            match read(&Block { sync, bytes }) {
                Some(said) => {
                    assert!(rt; is_message);
                    assert_eq!(rt; said.kind, Some(Kind::Cs));
                    assert!(rt; said.starts && said.ends);
                    assert_eq!(rt; said.first, 3);
                    assert_eq!(rt; said.second, 0x1E);
                }
                None => assert!(rt; !is_message),
            }
        }
    }

    #[test]
    fn sequences(rt: HostRuntime) {
        let [a, b, c, d, e] = vector();
        let none = Ok(None);
        let whole = Ok(Some(Kind::OneDm));
        let mut collector = Collector::new();
        // a start in the middle
        run(
            &rt,
            &mut collector,
            &[
                (a, false, none),
                (b, false, none),
                (a, true, none),
                (b, false, none),
                (c, false, none),
                (d, false, none),
                (e, false, whole),
            ],
        );
        // the end mark missing, so that it comes late; and early
        let unmarked = part(0xD4, 0xE0, 0x95);
        run(
            &rt,
            &mut collector,
            &[
                (a, false, none),
                (b, false, none),
                (c, false, none),
                (d, false, none),
                (unmarked, true, none),
                (e, true, none),
            ],
        );
        run(
            &rt,
            &mut collector,
            &[
                (a, false, none),
                (part(0xD6, 0x05, 0x51), true, none),
                (c, true, none),
            ],
        );
        // nothing begun, and another kind than the one begun
        run(
            &rt,
            &mut collector,
            &[
                (b, true, none),
                (a, false, none),
                (part(0xE4, 0x05, 0x51), true, none),
                (c, true, none),
            ],
        );
        // a wrong remainder
        let wrong = Err(BlockError::WrongRemainder);
        run(
            &rt,
            &mut collector,
            &[
                (a, false, none),
                (b, false, none),
                (c, false, none),
                (d, false, none),
                (part(0xD6, 0xE0, 0x94), false, wrong),
                (e, true, none),
            ],
        );
        // a message of one block gives up the one begun, whole or with a wrong remainder
        run(
            &rt,
            &mut collector,
            &[
                (a, false, none),
                (part(0xDB, 3, 0x1E), true, Ok(Some(Kind::Cs))),
                (a, false, none),
                (part(0xDB, 3, 0x1F), true, wrong),
            ],
        );
    }

    #[test]
    fn interleaved(rt: HostRuntime) -> Result<(), Fail> {
        let [a, b, c, d, e] = vector();
        let none = Ok(None);
        let mut collector = Collector::new();
        // a protection message of zeros, which leave 0, and basic messages with one mark, with both and with none
        run(
            &rt,
            &mut collector,
            &[
                (a, false, none),
                (part(0x45, 0, 0), false, none),
                (basic(Mark::Start), false, Ok(Some(Kind::Basic))),
                (b, false, none),
                (part(0x46, 0, 0), false, Ok(Some(Kind::Aps))),
                (part(0x3F, 0, 0), true, none),
                (part(0x3C, 0, 0), true, none),
                (c, false, none),
            ],
        );
        // every code that names no kind
        for code in 0..64u8 {
            if [0x0F, 0x11, 0x30, 0x33, 0x35, 0x36, 0x39].contains(&code) {
                continue;
            }
            run(
                &rt,
                &mut collector,
                &[(
                    part(4 * code + 3, 1, 2),
                    false,
                    Err(BlockError::UnknownCode),
                )],
            );
        }
        run(
            &rt,
            &mut collector,
            &[(d, false, none), (e, false, Ok(Some(Kind::OneDm)))],
        );
        assert!(rt; collector.last(Kind::Cv).is_none());
        match collector.last(Kind::OneDm) {
            Some(kept) => {
                assert_eq!(rt; kept.kind(), Kind::OneDm);
                assert_eq!(rt; kept.values().len(), 10);
                for (value, expected) in kept.values().iter().zip([
                    0x37, 0x9A, 0x05, 0x51, 0x91, 0x52, 0x35, 0x98, 0xE0, 0x95,
                ].iter())
                {
                    assert_eq!(rt; *value, *expected);
                }
                Ok(())
            }
            None => {
                assert!(rt; false);
                Ok(())
            },
        }
    }
}
