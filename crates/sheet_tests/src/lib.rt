//! Examples of the sheet reader, as tables of sheets and what they come to, worked out by hand.
//! Accepted sheets with the slots and shares that they give; refused ones by cause, level and line.
//! Main promise: none; each test is proved to be safe and to end, and then run.
#![tactic(auto)]

#[cfg(test)]
mod tests {
    use calendar::Calendar;
    use numbers::{ClientNumber, SlotNumber};
    use refusal::{Level, Refusal, SheetRefusal};
    use std::process::Abort;
    use std::test::Fail;

    const SAMPLE: &[u8] =
        b"(client 7 (slots 1 4))\n(client 12 (slots 5 5) (slots 480 480))\n(client 3 (slots 6 7))\n";

    // A calendar has the shares: each is a client, how many slots it has, and the lowest.
    fn has_shares(
        rt: &impl Abort,
        calendar: &Calendar,
        shares: &[(u16, u16, u16)],
    ) -> Result<(), Fail> {
        for share in shares {
            let client = ClientNumber::try_from(share.0)?;
            assert_eq!(rt;
                calendar.share(client),
                (share.1, share.2),
                "client {}",
                share.0
            );
        }
        Ok(())
    }

    // A calendar has the entries, each a slot and its client, or 0 for an empty slot.
    fn has_entries(
        rt: &impl Abort,
        calendar: &Calendar,
        entries: &[(u16, u16)],
    ) -> Result<(), Fail> {
        for entry in entries {
            let slot = SlotNumber::try_from(entry.0)?;
            let client = ClientNumber::entry(calendar.client(slot));
            assert_eq!(rt; client, entry.1, "slot {}", entry.0);
        }
        Ok(())
    }

    // A sheet, case `i`, is refused.
    fn refused(
        rt: &impl Abort,
        i: usize,
        sheet: &[u8],
        cause: Refusal,
        level: Level,
        line: usize,
    ) -> Result<(), Fail> {
        let mut calendar = Calendar::empty();
        let answer = sheet::read(sheet, &mut calendar);
        assert_eq!(rt;
            answer,
            Err(SheetRefusal { cause, level, line }),
            "case {i}"
        );
        Ok(())
    }

    // Sheets, each with the line at which it is refused.
    fn all_refused(
        rt: &impl Abort,
        cause: Refusal,
        level: Level,
        cases: &[(&[u8], usize)],
    ) -> Result<(), Fail> {
        for (i, case) in cases.iter().enumerate() {
            refused(rt, i, case.0, cause, level, case.1)?;
        }
        Ok(())
    }

    #[test]
    fn accepted(rt: HostRuntime) -> Result<(), Fail> {
        let mut calendar = Calendar::empty();
        sheet::read(SAMPLE, &mut calendar)?;
        has_shares(
            &rt,
            &calendar,
            &[(3, 2, 6), (7, 4, 1), (12, 2, 5), (1, 0, 0), (480, 0, 0)],
        )?;
        has_entries(
            &rt,
            &calendar,
            &[
                (1, 7),
                (4, 7),
                (5, 12),
                (6, 3),
                (7, 3),
                (8, 0),
                (479, 0),
                (480, 12),
            ],
        )?;
        // a sheet takes the place of all that the calendar held
        sheet::read(
            b"(client 100 (slots 480 480) (slots 2 10))\n",
            &mut calendar,
        )?;
        has_shares(
            &rt,
            &calendar,
            &[(100, 10, 2), (3, 0, 0), (7, 0, 0), (12, 0, 0)],
        )?;
        has_entries(
            &rt,
            &calendar,
            &[(1, 0), (2, 100), (10, 100), (11, 0), (480, 100)],
        )?;
        sheet::read(b"", &mut calendar)?;
        has_shares(&rt, &calendar, &[(100, 0, 0), (1, 0, 0), (480, 0, 0)])?;
        sheet::read(b"(client 480 (slots 1 480))\n", &mut calendar)?;
        has_shares(&rt, &calendar, &[(480, 480, 1), (1, 0, 0)])
    }

    #[test]
    fn refused_marks(rt: HostRuntime) -> Result<(), Fail> {
        all_refused(
            &rt,
            Refusal::MarkNotAllowed,
            Level::Marks,
            &[
                (b"(client 7\t(slots 1 4))\n", 1),
                (b"(Client 7 (slots 1 4))\n", 1),
                (b"(client 7 (slots 1 4))\r\n", 1),
                (b"(client 7 (slots 1 4))\n\x80\n", 2),
                (b"(client 7 (slots 1 4))\n(client 8 (slots 5 5))\n\xff", 3),
                // the bytes next to digits, small letters and brackets
                (b"/\n", 1),
                (b":\n", 1),
                (b"`\n", 1),
                (b"{\n", 1),
                (b"'\n", 1),
                (b"*\n", 1),
                // no newline at the end either
                (b"(client 7 (slots 1 4))\n(client 8 (slots 5 5)]", 2),
                // behind a broken form, a number out of range, a client named twice
                (b"(client  7 (slots 1 4)) #\n", 1),
                (b"(client 0 (slots 1 4))#\n", 1),
                (b"(client 7 (slots 1 4))\n(client 7 (slots 1 4))#\n", 2),
            ],
        )
    }

    #[test]
    fn refused_forms(rt: HostRuntime) -> Result<(), Fail> {
        all_refused(
            &rt,
            Refusal::FormBroken,
            Level::Forms,
            &[
                // no newline at the end, empty lines
                (b"(client 7 (slots 1 4))", 1),
                (b"(client 7 (slots 1 4))\n(client 8 (slots 5 5))", 2),
                (b"\n", 1),
                (b"(client 7 (slots 1 4))\n\n", 2),
                (b"(client 7 (slots 1 4))\n\n(client 8 (slots 5 5))\n", 2),
                // numbers with a needless zero, or of no or more than three digits
                (b"(client 00 (slots 1 4))\n", 1),
                (b"(client 007 (slots 1 4))\n", 1),
                (b"(client 7 (slots 01 4))\n", 1),
                (b"(client 7 (slots 1 04))\n", 1),
                (b"(client 1000 (slots 1 4))\n", 1),
                (b"(client 7 (slots 1 1000))\n", 1),
                (b"(client  (slots 1 4))\n", 1),
                (b"(client seven (slots 1 4))\n", 1),
                // blanks
                (b" (client 7 (slots 1 4))\n", 1),
                (b"( client 7 (slots 1 4))\n", 1),
                (b"(client  7 (slots 1 4))\n", 1),
                (b"(client 7  (slots 1 4))\n", 1),
                (b"(client 7(slots 1 4))\n", 1),
                (b"(client 7 (slots 1 4)(slots 5 5))\n", 1),
                (b"(client 7 (slots 1 4) )\n", 1),
                (b"(client 7 (slots 1 4)) \n", 1),
                // groups and brackets
                (b"(client 7)\n", 1),
                (b"(client 7 (slots 1))\n", 1),
                (b"(client 7 (slots 1 2 3))\n", 1),
                (b"(client 7 (slots 1 4)\n", 1),
                (b"(client 7 (slots 1 4)))\n", 1),
                (b"(clients 7 (slots 1 4))\n", 1),
                // behind a number out of range, a slot given twice, a client named twice
                (b"(client 0 (slots 1 4)\n", 1),
                (b"(client 7 (slots 481 481) (slots 5))\n", 1),
                (b"(client 7 (slots 1 4) (slots 1 4) (slots 5))\n", 1),
                (b"(client 7 (slots 1 4))\n(client 7 (slots 1 4)\n", 2),
                // before a line with a mark that is not allowed
                (b"(client 7)\n#\n", 1),
            ],
        )
    }

    #[test]
    fn refused_calendars(rt: HostRuntime) -> Result<(), Fail> {
        all_refused(
            &rt,
            Refusal::OutOfRange,
            Level::Calendar,
            &[
                (b"(client 0 (slots 1 4))\n", 1),
                (b"(client 481 (slots 1 4))\n", 1),
                (b"(client 999 (slots 1 4))\n", 1),
                (b"(client 7 (slots 0 4))\n", 1),
                (b"(client 7 (slots 0 0))\n", 1),
                (b"(client 7 (slots 480 481))\n", 1),
                (b"(client 7 (slots 4 1))\n", 1),
                (b"(client 7 (slots 1 4) (slots 6 5))\n", 1),
                (b"(client 7 (slots 6 5) (slots 1 4))\n", 1),
                (b"(client 7 (slots 1 4))\n(client 481 (slots 5 5))\n", 2),
                // behind a client named twice, a slot given twice
                (b"(client 7 (slots 1 4))\n(client 7 (slots 5 481))\n", 2),
                (b"(client 7 (slots 1 4) (slots 4 4) (slots 9 8))\n", 1),
            ],
        )?;
        all_refused(
            &rt,
            Refusal::ClientTwice,
            Level::Calendar,
            &[
                (b"(client 7 (slots 1 4))\n(client 7 (slots 5 5))\n", 2),
                (
                    b"(client 7 (slots 1 1))\n(client 8 (slots 2 2))\n(client 7 (slots 3 3))\n",
                    3,
                ),
                // and a slot given twice
                (b"(client 7 (slots 1 4))\n(client 7 (slots 4 5))\n", 2),
                (
                    b"(client 7 (slots 1 4))\n(client 7 (slots 5 5) (slots 5 5))\n",
                    2,
                ),
            ],
        )?;
        all_refused(
            &rt,
            Refusal::SlotTwice,
            Level::Calendar,
            &[
                (b"(client 7 (slots 5 5) (slots 5 5))\n", 1),
                (b"(client 7 (slots 1 4) (slots 4 5))\n", 1),
                (b"(client 7 (slots 1 4) (slots 2 3) (slots 9 9))\n", 1),
                (b"(client 7 (slots 1 4))\n(client 8 (slots 4 4))\n", 2),
                (b"(client 7 (slots 480 480))\n(client 8 (slots 1 480))\n", 2),
                // before lines that break other rules
                (
                    b"(client 7 (slots 1 1) (slots 1 1))\n#\n\n(client 7 (slots 0 0))\n",
                    1,
                ),
            ],
        )
    }

    // A sheet of 16,384 bytes is judged by line, one of 16,385 is too long.
    #[test]
    fn longest(rt: HostRuntime) -> Result<(), Fail> {
        let mut bytes = [b'A'; 16385];
        bytes[0..23].copy_from_slice(b"(client 7 (slots 1 4))\n");
        refused(
            &rt,
            0,
            &bytes[0..16384],
            Refusal::MarkNotAllowed,
            Level::Marks,
            2,
        )?;
        refused(&rt, 1, &bytes, Refusal::FormBroken, Level::Forms, 1)
    }

    #[test]
    fn refusal_changes_nothing(rt: HostRuntime) -> Result<(), Fail> {
        let mut calendar = Calendar::empty();
        sheet::read(SAMPLE, &mut calendar)?;
        let sheets: [&[u8]; 6] = [
            b"(client 9 (slots 1 480))\n#\n",
            b"(client 9 (slots 1 480))\n\n",
            b"(client 9 (slots 1 480))\n(client 0 (slots 1 1))\n",
            b"(client 9 (slots 1 480))\n(client 8 (slots 1 1))\n",
            b"(client 9 (slots 1 479))\n(client 9 (slots 480 480))\n",
            &[b' '; 16385],
        ];
        for sheet in sheets {
            assert!(rt; sheet::read(sheet, &mut calendar).is_err());
            has_shares(
                &rt,
                &calendar,
                &[(3, 2, 6), (7, 4, 1), (12, 2, 5), (8, 0, 0), (9, 0, 0)],
            )?;
            has_entries(
                &rt,
                &calendar,
                &[
                    (1, 7),
                    (4, 7),
                    (5, 12),
                    (6, 3),
                    (7, 3),
                    (8, 0),
                    (479, 0),
                    (480, 12),
                ],
            )?;
        }
        Ok(())
    }
}
