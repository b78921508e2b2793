//! The highest level of the sheet reader: a sheet's leases, line by line, as a calendar.
//! A sheet has one lease a line; the first line that breaks a rule refuses the sheet, and the calendar is as it was.
//! Main promise: `read` accepts just the sheets that write out lawful leases, and gives each slot to its lease's client.
#![tactic(auto)]

ghost use Rattle.std.specs.Prelude.{◌≡◌, ℕ, ◌+◌, ◌-◌, ◌<◌, ◌≤◌, true, false, List, length, is_ok, Some, None, Ok, Err, IfErr, IfOk, MatchResult, OnErr, OnOk};
ghost use Rattle.calendar.specs.Entries.{entries_of};
ghost use Rattle.sheet.specs.Groups.{claim_of, group_of};
ghost use Rattle.form.specs.Form.{form};
ghost use Rattle.form.specs.Lease.{Lease};
ghost use Rattle.form.specs.Marks.{lines};
ghost use Rattle.form.specs.Reads.{Reads};
ghost use Rattle.sheet.specs.Laws.{Gives, Lawful, RefusedSheet, WritesOut, sheet_text};
ghost use Rattle.sheet.specs.Verdict.{claim_verdict, claim_with_group, claims_of, entries_with_group, fits, has_used_slot, is_named, lease_verdict, lines_verdict, refusal_at, verdict};

use calendar::Calendar;
use form::{FormError, Group, SheetFault, closes, first_line, read_client, read_group};
use numbers::{ClientNumber, SlotNumber};
use refusal::{Level, Refusal, SheetRefusal};

/// Bytes of the longest sheet.
pub const LONGEST: usize = 16384;

// Gives the slots from first to last to a client; whether one of them had a client.
fn give(draft: &mut Calendar, client: ClientNumber, first: SlotNumber, last: SlotNumber) -> bool
    ensures entries { entries_of draft.new ≡ entries_with_group client (record { first = first; last = last }) (entries_of draft.old) }
    ensures again { result ≡ has_used_slot (record { first = first; last = last }) (entries_of draft.old) }
{
    let mut again = false;
    for slot in first.to(last) {
        if draft.client(slot).is_some() {
            again = true;
        }
        draft.assign(slot, client);
    }
    again
}

// Gives a group's slots to a client; whether one of them had a client. The client is a number as the line writes it, here and up to
// `lease`: that it is no client's is a fault only once the whole form is read. Calendar and client are not one struct: with the
// calendar as a `&mut` in a field, each of the five functions would have to promise that it is the same loan.
fn grant(draft: &mut Calendar, client: u16, group: Group) -> Result<bool, Refusal>
    ensures fits { is_ok result ≡ fits client (group_of group) }
    ensures again { IfOk result (λ again. again ≡ has_used_slot (group_of group) (entries_of draft.old)) }
    ensures given { OnOk result (entries_of draft.new ≡ entries_with_group client (group_of group) (entries_of draft.old)) }
    ensures cause { IfErr result (λ cause. cause ≡ Refusal.OutOfRange) }
    ensures kept { OnErr result (draft.new ≡ draft.old) }
{
    let client = ClientNumber::try_from(client)?;
    let first = SlotNumber::try_from(group.first)?;
    let last = SlotNumber::try_from(group.last)?;
    if group.last < group.first {
        return Err(Refusal::OutOfRange);
    }
    Ok(give(draft, client, first, last))
}

// What a line's groups so far come to: all are in range, and a slot was given twice. Both are kept, and neither as an error, since
// a fault behind a group may be the one that is named.
#[derive(Clone, Copy)]
struct Claims {
    lawful: bool,
    twice: bool,
}

// One group more.
fn claim(draft: &mut Calendar, so_far: Claims, client: u16, group: Group) -> Claims
    ensures { claim_of (entries_of draft.new) result ≡ claim_with_group client (group_of group) (claim_of (entries_of draft.old) so_far) }
{
    match grant(draft, client, group) {
        Ok(again) => Claims {
            lawful: so_far.lawful,
            twice: so_far.twice || again,
        },
        Err(_) => Claims {
            lawful: false,
            twice: so_far.twice,
        },
    }
}

// The groups of a line, up to its closing bracket.
fn claim_all(draft: &mut Calendar, client: u16, text: &[u8]) -> Result<Claims, FormError>
    ensures { Reads (claim_of (entries_of draft.new)) result (claims_of client text.now (entries_of draft.old)) }
{
    let mut rest = text;
    let mut claims = Claims {
        lawful: true,
        twice: false,
    };
    loop {
        let (group, behind) = read_group(rest)?;
        claims = claim(draft, claims, client, group);
        if closes(behind) {
            return Ok(claims);
        }
        rest = behind;
    }
}

// Whether a client has slots.
fn is_named(draft: &Calendar, client: u16) -> bool
    ensures { result ≡ is_named client (entries_of draft.now) }
{
    ClientNumber::try_from(client).is_ok_and(|client| draft.share(client).0 > 0)
}

// The fault of a line that has the form, if it has one: a number out of range first, then the client, then its slots.
fn first_fault(known: bool, claims: Claims) -> Result<(), SheetFault>
    ensures lawful { OnOk result ((n : ℕ) (es : List ℕ) → claim_verdict n known (claim_of es claims) ≡ Ok es) }
    ensures fault { IfErr result (λ fault. (n : ℕ) (es : List ℕ) → claim_verdict n known (claim_of es claims) ≡ Err (refusal_at fault.cause fault.level n)) }
{
    let cause = if !claims.lawful {
        Refusal::OutOfRange
    } else if known {
        Refusal::ClientTwice
    } else if claims.twice {
        Refusal::SlotTwice
    } else {
        return Ok(());
    };
    Err(SheetFault {
        cause,
        level: Level::Calendar,
    })
}

// Reads a line without its newline as a lease, and gives the lease's slots to its client.
fn lease(draft: &mut Calendar, line: &[u8]) -> Result<(), SheetFault>
    ensures read { OnOk result ((n : ℕ) → lease_verdict n (entries_of draft.old) (form line.now) ≡ Ok (entries_of draft.new)) }
    ensures fault { IfErr result (λ fault. (n : ℕ) → lease_verdict n (entries_of draft.old) (form line.now) ≡ Err (refusal_at fault.cause fault.level n)) }
{
    let (client, text) = read_client(line)?;
    let known = is_named(draft, client);
    let claims = claim_all(draft, client, text)?;
    first_fault(known, claims)
}

// Reads the first line of what is left of a sheet, and answers what follows it.
fn read_line<'a>(draft: &mut Calendar, sheet: &'a [u8]) -> Result<&'a [u8], SheetFault>
    requires { 0 < length sheet.now }
    ensures read { IfOk result (λ rest. (n : ℕ) → lines_verdict n (entries_of draft.old) (lines sheet.now) ≡ lines_verdict (n + 1) (entries_of draft.new) (lines rest.now)) }
    ensures fault { IfErr result (λ fault. (n : ℕ) → lines_verdict n (entries_of draft.old) (lines sheet.now) ≡ Err (refusal_at fault.cause fault.level n)) }
    ensures shorter { IfOk result (λ rest. length rest.now < length sheet.now) }
{
    let (line, rest) = first_line(sheet)?;
    lease(draft, line.ok_or(FormError)?)?;
    Ok(rest)
}

// Reads a sheet line by line into a draft, which replaces the calendar at the end.
fn read_lines(sheet: &[u8], calendar: &mut Calendar) -> Result<(), SheetRefusal>
    ensures { MatchResult result (λ _. verdict sheet.now ≡ Ok (entries_of calendar.new)) (λ e. (verdict sheet.now ≡ Err e) × (calendar.new ≡ calendar.old)) }
{
    if sheet.len() > LONGEST {
        return Err(SheetFault::from(FormError).at(1));
    }
    let mut draft = Calendar::empty();
    let mut rest = sheet;
    let mut number = 1;
    // not by `split_inclusive`: `first_line` cuts the line off itself and answers what follows, so that each newline is looked for once
    while !rest.is_empty() {
        rest = read_line(&mut draft, rest).map_err(|fault| fault.at(number))?;
        number += 1;
    }
    *calendar = draft;
    Ok(())
}

/// Reads a sheet into a calendar, in place of all that it held; a refused sheet leaves it as it was.
pub fn read(sheet: &[u8], calendar: &mut Calendar) -> Result<(), SheetRefusal>
    ensures equals { MatchResult result (λ _. verdict sheet.now ≡ Ok (entries_of calendar.new)) (λ e. (verdict sheet.now ≡ Err e) × (calendar.new ≡ calendar.old)) }
    ensures only { MatchResult result (λ _. WritesOut sheet.now (entries_of calendar.new)) (λ e. RefusedSheet sheet.now e) }
    ensures every { (ls : List Lease) → Lawful ls → sheet.now ≡ sheet_text ls → length sheet.now ≤ 16384 → (is_ok result ≡ true) × Gives ls (entries_of calendar.new) }
{
    read_lines(sheet, calendar)
}
