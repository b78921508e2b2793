//! The text that is printed of a calendar, and of a refused lease sheet, as bytes in memory that the caller lends.
//! A line for each client that has slots, by rising client: client, slot count, first slot.
//! Main promise: the bytes written are those that the definition `listing_of`, or `refused_line`, gives; all others stay.
#![tactic(auto)]

ghost use Rattle.std.specs.Prelude.{◌≡◌, ◌≤◌};
ghost use Rattle.calendar.specs.Entries.{entries_of};
ghost use Rattle.listing.specs.Lines.{PlainDecimals, client_count_line, client_line, listing_of, refused_line};
ghost use Rattle.listing.specs.Sample.{Samples};
ghost use Rattle.text_out.specs.Wrote.{Writes, Wrote};

use calendar::Calendar;
use numbers::{ClientNumber, SLOTS};
use refusal::Refusal;
use text_out::TextOut;

/// Bytes that hold any listing: 480 lines of at most 12, as "480 480 480\n".
pub const LISTING_LEN: usize = SLOTS * 12;

/// Bytes that hold any refusal line: "refused ", a number of at most 3 digits, " line ", one of at most 20, "\n".
pub const REFUSAL_LEN: usize = 8 + 3 + 6 + 20 + 1;

// Writes a line of the listing.
fn put_line(text: &mut TextOut<'_>, client: ClientNumber, count: u16, first: u16)
    ensures { Writes text.old text.new (client_count_line client count first) }
{
    text.put_number(usize::from(client.number()), b" ");
    text.put_number(usize::from(count), b" ");
    text.put_number(usize::from(first), b"\n");
}

// Writes a client's line, if it has slots.
fn put_client(text: &mut TextOut<'_>, calendar: &Calendar, client: ClientNumber)
    ensures { Writes text.old text.new (client_line (entries_of calendar.now) client) }
{
    let (count, first) = calendar.share(client);
    if count != 0 {
        put_line(text, client, count, first);
    }
}

/// Writes the listing of a calendar, and answers how many bytes it has.
pub fn listing(calendar: &Calendar, out: &mut [u8; LISTING_LEN]) -> usize
    ensures wrote { Wrote 0 (listing_of (entries_of calendar.now)) out.old out.new result }
    ensures fits { result ≤ 5760 }
{
    let mut text = TextOut::new(out);
    for client in ClientNumber::all() {
        put_client(&mut text, calendar, client);
    }
    text.finish()
}

/// Writes the line printed of a refused sheet, and answers how many bytes it has.
pub fn refusal_line(cause: Refusal, line: usize, out: &mut [u8; REFUSAL_LEN]) -> usize
    ensures wrote { Wrote 0 (refused_line cause line) out.old out.new result }
    ensures fits { result ≤ 38 }
{
    let number = usize::from(cause.number());
    let mut text = TextOut::new(out);
    text.put(b"refused ");
    text.put_number(number, b" line ");
    text.put_number(line, b"\n");
    text.finish()
}

/// Numbers are written in decimal with no needless zero.
pub fn decimals_are_plain()
    ensures { PlainDecimals }
{}

/// A calendar and a refusal written out have the bytes that the definitions give.
pub fn samples_hold()
    ensures { Samples }
{}

#[cfg(test)]
mod tests {
    use super::*;
    use numbers::SlotNumber;
    use std::process::Abort;
    use std::test::Fail;

    // Leases of client, first and last slot are listed as the text, and the bytes after it stay.
    fn listed(rt: &impl Abort, leases: &[(u16, u16, u16)], text: &[u8]) -> Result<(), Fail> {
        let mut calendar = Calendar::empty();
        for lease in leases {
            let client = ClientNumber::try_from(lease.0)?;
            for slot in SlotNumber::try_from(lease.1)?.to(SlotNumber::try_from(lease.2)?) {
                calendar.assign(slot, client);
            }
        }
        let before = [b'#'; LISTING_LEN];
        let mut out = before;
        let end = listing(&calendar, &mut out);
        assert_eq!(rt; &out[0..end], text);
        assert_eq!(rt; &out[end..LISTING_LEN], &before[end..LISTING_LEN]);
        Ok(())
    }

    #[test]
    fn listings(rt: HostRuntime) -> Result<(), Fail> {
        listed(&rt, &[], b"")?;
        listed(
            &rt,
            &[(7, 1, 4), (12, 5, 5), (12, 480, 480), (3, 6, 7)],
            b"3 2 6\n7 4 1\n12 2 5\n",
        )?;
        listed(&rt, &[(480, 480, 480)], b"480 1 480\n")?;
        listed(&rt, &[(7, 1, 4), (100, 1, 480)], b"100 480 1\n")
    }

    // A cause at a line is printed as the text, and the bytes after it stay.
    fn printed(rt: &impl Abort, cause: Refusal, line: usize, text: &[u8]) {
        let before = [b'#'; REFUSAL_LEN];
        let mut out = before;
        let end = refusal_line(cause, line, &mut out);
        assert_eq!(rt; &out[0..end], text);
        assert_eq!(rt; &out[end..REFUSAL_LEN], &before[end..REFUSAL_LEN]);
    }

    #[test]
    fn refusals(rt: HostRuntime) {
        printed(&rt, Refusal::OutOfRange, 2, b"refused 3 line 2\n");
        printed(&rt, Refusal::ClientTwice, 105, b"refused 5 line 105\n");
        printed(
            &rt,
            Refusal::MarkNotAllowed,
            usize::MAX,
            b"refused 1 line 18446744073709551615\n",
        );
    }
}
