//! A calendar: for each of the 480 slots of a frame the client that it is leased to, or none.
//! A slot is named by a SlotNumber and holds a ClientNumber, so no slot and no entry is out of range.
//! Main promise: `assign` changes one entry and no other; `share` counts a client's slots and finds its lowest one.
#![tactic(auto)]

ghost use Rattle.std.specs.Prelude.{◌≡◌, ◌-◌, ◌<◌, ◌≤◌, IfSome, count_by, drop, length, position, replicate, slice_index, slice_set, true};
ghost use Rattle.std.specs.List.{AllPass};
ghost use Rattle.calendar.specs.Share.{ShareLaw, first_slot, is_client, slot_count};
ghost use Rattle.numbers.specs.Entries.{entry_of, is_entry};
ghost use Rattle.numbers.specs.Range.{IsOneTo480, slots};

use numbers::{ClientNumber, SLOTS, SlotNumber};

/// Which client has which slot. Its facts stand in ghost fields and not in a model, so that a caller's proof has them with no call.
// No `PartialEq` and no `Debug`: a calendar is read by `client` and `share`, and none is compared or printed.
#[derive(Clone, Copy)]
pub struct Calendar {
    // by rising slot
    entries: [Option<ClientNumber>; SLOTS],
    ghost full: { length entries ≡ slots },
    ghost in_range: { AllPass is_entry entries },
}

impl Calendar {
    ghost use Rattle.calendar.specs.Entries.{EntriesInRange, entries_of};

    /// The calendar with every slot empty.
    pub fn empty() -> Calendar
        ensures { entries_of result ≡ replicate slots 0 }
    {
        Calendar {
            entries: [None; SLOTS],
        }
    }

    /// The client of a slot.
    pub fn client(&self, slot: SlotNumber) -> Option<ClientNumber>
        ensures value { entry_of result ≡ slice_index (entries_of self.now) (slot - 1) }
        ensures range { is_entry result ≡ true }
        ensures slot_range { IsOneTo480 slot }
    {
        self.entries[slot.index()]
    }

    /// Leases a slot to a client.
    pub fn assign(&mut self, slot: SlotNumber, client: ClientNumber)
        ensures value { entries_of self.new ≡ slice_set (entries_of self.old) (slot - 1) client }
        ensures slot_range { IsOneTo480 slot }
        ensures client_range { IsOneTo480 client }
    {
        let i = slot.index();
        // says of the client what its type keeps, that it is in range
        let _ = client.number();
        self.entries[i] = Some(client);
    }

    // A pair, and 0 for none: whoever prints a client's line wants both, and so of one calendar.
    /// How many slots a client has, and the lowest of them; two zeros where it has none.
    pub fn share(&self, client: ClientNumber) -> (u16, u16)
        ensures count { result.0 ≡ slot_count client (entries_of self.now) }
        ensures first { result.1 ≡ first_slot client (entries_of self.now) }
        ensures law { ShareLaw client (entries_of self.now) result.0 result.1 }
        ensures client_range { IsOneTo480 client }
    {
        // says of the client what its type keeps, that it is in range
        let _ = client.number();
        // by match: a closure for `map_or` would hold the calendar and the client, and reads no plainer
        match self.first_index(client) {
            Some(first) => (self.count_from(first, client), first as u16 + 1),
            None => (0, 0),
        }
    }

    // The place of the client's first entry, from 0.
    fn first_index(&self, client: ClientNumber) -> Option<usize>
        ensures value { result ≡ position (is_client client) self.now.entries }
        ensures within { IfSome result (λ i. i < slots) }
    {
        self.entries.iter().position(|entry| *entry == Some(client))
    }

    // How many entries from this place on are the client's.
    fn count_from(&self, place: usize, client: ClientNumber) -> u16
        requires { place ≤ slots }
        ensures { result ≡ count_by (is_client client) (drop place self.now.entries) }
    {
        let entries = &self.entries[..];
        entries[place..]
            .iter()
            .filter(|entry| **entry == Some(client))
            .count() as u16
    }

    /// Every calendar has 480 entries, each a client number or 0.
    pub fn entries_in_range()
        ensures { EntriesInRange }
    {}
}

#[cfg(test)]
mod tests {
    use super::*;
    use numbers::SlotNumber;
    use std::process::Abort;
    use std::test::Fail;

    // Leases of client, first and last slot lead to shares of client, slot count and first slot.
    fn leads_to(
        rt: &impl Abort,
        leases: &[(u16, u16, u16)],
        shares: &[(u16, u16, u16)],
    ) -> Result<(), Fail> {
        let mut calendar = Calendar::empty();
        for lease in leases {
            let client = ClientNumber::try_from(lease.0)?;
            for slot in SlotNumber::try_from(lease.1)?.to(SlotNumber::try_from(lease.2)?) {
                calendar.assign(slot, client);
                assert_eq!(rt; calendar.client(slot), Some(client));
            }
        }
        for share in shares {
            let client = ClientNumber::try_from(share.0)?;
            assert_eq!(rt; calendar.share(client), (share.1, share.2));
        }
        Ok(())
    }

    #[test]
    fn shares(rt: HostRuntime) -> Result<(), Fail> {
        leads_to(&rt, &[], &[(1, 0, 0), (480, 0, 0)])?;
        leads_to(
            &rt,
            &[(7, 1, 4), (12, 5, 5), (12, 480, 480), (3, 6, 7)],
            &[(3, 2, 6), (7, 4, 1), (12, 2, 5), (480, 0, 0)],
        )?;
        leads_to(&rt, &[(480, 480, 480)], &[(480, 1, 480), (1, 0, 0)])?;
        leads_to(&rt, &[(7, 1, 4), (9, 1, 480)], &[(9, 480, 1), (7, 0, 0)])
    }
}
